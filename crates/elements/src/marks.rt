// Sets of numbers below 512 as marks in eight words: the size is the number of marks set, and what is not marked is passed over.
ghost use Rattle.std.specs.Prelude.{◌<◌, ◌≤◌, ◌≡◌, length};
ghost use Rattle.std.proofs.lemmas.List.Edits.{sets};
ghost use Rattle.elements.specs.Marks.{is_marked, marking, marked_numbers, CountOf, NoneMarked, Both, DownTo, ZerosBelow, ZerosAbove, WordFits, WordListed};

use rules::ElementId;

// How many words a set has, and how many marks a word.
pub const WORDS: usize = 8;

pub const BITS: usize = 64;

// A set of numbers below 512.
#[derive(Clone, Copy)]
pub struct Marks {
    pub words: [u64; WORDS],
}

fn ones_of(x: u64) -> usize
    ensures { CountOf x result }
{
    u64::count_ones(x) as usize
}

pub fn zeros_below(x: u64) -> usize
    ensures { ZerosBelow x result }
{
    u64::trailing_zeros(x) as usize
}

fn zeros_above(x: u64) -> usize
    ensures { ZerosAbove x result }
{
    u64::leading_zeros(x) as usize
}

// The numbers of a word's marks, in rising order, by its zeros as document 01 asks; the place behind them.
fn list_word(list: &mut [u16], from: usize, word: u64, base: usize) -> usize
    requires { WordFits list.old from word base }
    ensures { WordListed list.old from word base result list.new }
{
    let mut at = from;
    let mut x = base;
    let mut left = word;
    while left != 0 {
        let z = zeros_below(left);
        list[at] = (x + z) as u16;
        at = at + 1;
        // Two shifts, since together they may be all 64.
        left = (left >> z) >> 1;
        x = x + z + 1;
    }
    at
}

impl Marks {
    pub fn none() -> Self
        ensures { NoneMarked result.words }
    {
        Marks { words: [0; WORDS] }
    }

    // One word is written, and none is copied.
    pub fn mark(&mut self, e: ElementId)
        requires { e.0 < 512 }
        ensures { self.new.words ≡ marking self.old.words e.0 }
    {
        let w = e.0 / BITS;
        let b = e.0 % BITS;
        self.words[w] |= 1u64 << b;
    }

    pub fn has(&self, e: ElementId) -> bool
        requires { e.0 < 512 }
        ensures { result ≡ is_marked self.now.words e.0 }
    {
        let w = e.0 / BITS;
        let b = e.0 % BITS;
        (self.words[w] >> b) & 1 == 1
    }

    // From a number down to the highest mark of its word, or to the word's first number where there is none.
    pub fn down_to(&self, e: ElementId) -> ElementId
        requires { e.0 < 512 }
        ensures { DownTo self.now.words e.0 result.0 }
    {
        let i = e.0;
        let b = i % BITS;
        let z = zeros_above(self.words[i / BITS] << (63 - b));
        ElementId(if z < b { i - z } else { i - b })
    }

    // Exactly what is in both sets.
    pub fn both(&self, other: &Marks) -> Marks
        ensures { Both self.now.words other.now.words result.words }
    {
        let mut both = *self;
        for w in 0..WORDS {
            both.words[w] &= other.words[w];
        }
        both
    }

    pub fn size(&self) -> usize
        ensures { result ≡ length (marked_numbers self.now.words) }
    {
        let mut n = 0usize;
        for &word in &self.words {
            n = n + ones_of(word);
        }
        n
    }

    // The front of the list becomes the numbers of the set, in rising order.
    pub fn list_all(&self, list: &mut [u16])
        requires { length (marked_numbers self.now.words) ≤ length list.old }
        ensures { list.new ≡ sets list.old 0 (marked_numbers self.now.words) }
    {
        let mut at = 0usize;
        for w in 0..WORDS {
            at = list_word(list, at, self.words[w], w * BITS);
        }
    }
}

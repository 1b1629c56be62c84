// From rank to rank below a root: the boundaries of all elements of one rank are those of the next rank down.
ghost use Rattle.std.specs.Prelude.{◌≡◌};
ghost use Rattle.elements.specs.Marks.{bits_from};
ghost use Rattle.elements.specs.Below.{Used};
ghost use Rattle.elements.specs.Levels.{marking_under, WordReady, SetReady, Under, Level};

use crate::below::mark_boundary;
use crate::marks::{BITS, Marks, WORDS, zeros_below};
use rules::ElementId;
use space::rows::rank_of;

// The boundaries of the elements of a word's marks, by its zeros as document 01 asks: no number is looked at that is not marked.
fn mark_under_word(elements: &[u16], word: u64, base: usize, marks: &mut Marks)
    requires { WordReady elements.now word base }
    ensures { marks.new.words ≡ marking_under elements.now marks.old.words (bits_from 64 word base) }
{
    let mut left = word;
    let mut x = base;
    while left != 0 {
        let z = zeros_below(left);
        mark_boundary(elements, ElementId(x + z), marks);
        left = (left >> z) >> 1;
        x = x + z + 1;
    }
}

// The boundaries of all elements of a set.
fn one_under(elements: &[u16], s: &Marks) -> Marks
    requires { SetReady elements.now s.now.words }
    ensures { Under elements.now s.now.words result.words }
{
    let mut marks = Marks::none();
    for w in 0..WORDS {
        mark_under_word(elements, s.words[w], w * BITS, &mut marks);
    }
    marks
}

// The elements of a rank below a root, if any.
pub fn level(elements: &[u16], root: ElementId, rank: usize) -> Marks
    requires { Used elements.now root.0 }
    ensures { Level elements.now root.0 rank result.words }
{
    let top = rank_of(elements, root);
    if top < rank {
        return Marks::none();
    }
    let mut s = Marks::none();
    s.mark(root);
    for i in rank..top {
        s = one_under(elements, &s);
    }
    s
}

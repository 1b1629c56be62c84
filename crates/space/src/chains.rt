// The index of the rows: from a key to the last row that has it, and from each row to the one before it with its key.
// Numbers in it are one more than a row's, so that 0 is the end of a chain. It is no part of the table: it lasts for one call.
ghost use Rattle.std.specs.Prelude.{◌+◌, ◌≤◌, ◌≡◌, eqb, length, take, drop};
ghost use Rattle.rules.specs.Lists.{alike, find, rows};
ghost use Rattle.space.specs.Chains.{key_of, keys, new_start};
ghost use Rattle.space.specs.Found.{element_number};
ghost use Rattle.space.specs.Numbers.{row_width, NumberBelow};
ghost use Rattle.space.specs.Ready.{SearchReady, SameRowReady, JoinReady};

use crate::words::{ELEMENTS, WIDTH, wide};
use rules::ElementId;

// Room for a chain's start for each key, and for a link for each row behind them.
pub const KEYS: usize = 512;

// A first number is spread so far over the keys, so that rows that share it stand on other chains.
const SPREAD: usize = 91;

// The words of the index.
pub const INDEX: usize = KEYS + ELEMENTS;

// The row's first two boundary numbers, mixed: equal rows share it. A remainder, so that any words are a place in the index.
pub fn key_of(words: &[u16], at: usize) -> usize
    requires { at + row_width ≤ length words.now }
    ensures { NumberBelow result (key_of (take row_width (drop at words.now))) keys }
{
    let first = wide(words[at + 4]);
    let second = wide(words[at + 5]);
    (first * SPREAD + second) % KEYS
}

// The row that stands at a place of some words is the table's row.
pub fn same_row(elements: &[u16], at: usize, words: &[u16], from: usize) -> bool
    requires { SameRowReady elements.now at words.now from }
    ensures { result ≡ alike eqb (take row_width (drop from words.now)) (take row_width (drop at elements.now)) }
{
    // rows on one chain nearly always are told apart by their first boundary number
    if words[from + 4] != elements[at + 4] {
        return false;
    }
    // no exit here, so that many words are compared at once
    let mut differ = 0u16;
    for j in 0..WIDTH {
        differ = differ | (words[from + j] ^ elements[at + j]);
    }
    differ == 0
}

// The lowest element whose row is the given one, or none: along the chain of its key down to the end the last equal row met is the lowest.
pub fn find_row(
    elements: &[u16],
    n: usize,
    words: &[u16],
    from: usize,
    index: &[u16],
) -> Option<ElementId>
    requires { SearchReady elements.now n words.now from index.now }
    ensures { element_number result ≡ find (alike eqb (take row_width (drop from words.now))) (rows n row_width elements.now) }
{
    let mut met = None;
    let mut x = wide(index[key_of(words, from)]);
    // an index is no list to go over: each number leads to the next
    while 0 < x {
        if same_row(elements, (x - 1) * WIDTH, words, from) {
            met = Some(ElementId(x - 1));
        }
        x = wide(index[KEYS + (x - 1)]);
    }
    met
}

// Row n is the new start of its key's chain.
pub fn join(index: &mut [u16], key: usize, n: usize)
    requires { JoinReady index.old key n }
    ensures { index.new ≡ new_start index.old key n }
{
    index[KEYS + n] = index[key];
    index[key] = (n + 1) as u16;
}

// Document 01's lines on one element, over the words of its row: whether the row is sound, by what is known of the elements before it.
ghost use Rattle.std.specs.Prelude.{◌+◌, ◌≤◌, ◌≡◌, length, take, drop};
ghost use Rattle.rules.specs.Limits.{desk};
ghost use Rattle.space.specs.Numbers.{row_width};
ghost use Rattle.soundness.specs.Known.{known_rows};
ghost use Rattle.soundness.specs.Words.{Mask, PastSeen, facet_words, polytope_words, row_sound};
ghost use Rattle.soundness.specs.Tests.{Kept, MovesOn, PastReady, CornerReady, CornerTested, RowThere, EdgeTested, RowReady, HigherReady, RowTested};

use crate::boundaries::{boundary_sound, numbers_fit};
use rules::{ElementId, VertexId};
use space::words::{BOUNDARY, ELEMENTS, NO_PLANE, wide};

// How many words stand before a boundary: rank, mark, hyperplane, count.
pub const HEAD: usize = 4;

// Entries of the mask: twice the room of a boundary.
pub const MASK: usize = 64;

// How the words of earlier elements lie: so many for each, the rank first, and from where on the two ends of an edge.
#[derive(Clone, Copy)]
pub struct Spacing {
    pub width: usize,
    pub ends: usize,
}

// Zeros and then ones: 32 entries of it, from entry 32 - n on, keep of 32 words those past the first n.
pub fn past_mask() -> [u16; MASK]
    ensures { Mask result }
{
    let mut past = [0u16; MASK];
    for k in BOUNDARY..MASK {
        past[k] = 65535;
    }
    past
}

// The word under an entry of the mask.
fn kept(x: u16, mask: u16) -> u16
    ensures { Kept x mask result }
{
    x & mask
}

// What stands past a row's boundary joins what was seen before. All its room is read, with one length and no test; whether anything was seen is asked once, after the last row.
fn gather_past(words: &[u16], at: usize, n: usize, past: &[u16; MASK], seen: &mut [u16; BOUNDARY])
    requires { PastReady words.now at n past.now seen.old }
    ensures { PastSeen (take row_width (drop at words.now)) seen.old seen.new }
{
    for j in 0..BOUNDARY {
        seen[j] = seen[j] | kept(words[at + HEAD + j], past[BOUNDARY - n + j]);
    }
}

// How far the row of a vertex element moves the next vertex on.
pub fn one_if_corner(words: &[u16], at: usize) -> usize
    requires { at + row_width ≤ length words.now }
    ensures { MovesOn (take row_width (drop at words.now)) result }
{
    usize::from(words[at] == 0)
}

// It names a hyperplane in use exactly when rank + 1 is the dimension, and has a primordial mark only then.
fn facet_sound(d: usize, h: usize, rank: usize, plane: usize, mark: usize) -> bool
    requires { rank ≤ d }
    ensures { result ≡ facet_words d h rank plane mark }
{
    if d - rank == 1 {
        return plane < h;
    }
    plane == NO_PLANE as usize && mark != 1
}

// The row of a vertex element has one fixed form, and names vertex k.
fn corner_sound(
    words: &[u16],
    at: usize,
    k: VertexId,
    past: &[u16; MASK],
    seen: &mut [u16; BOUNDARY],
) -> bool
    requires { CornerReady words.now at past.now seen.old }
    ensures { CornerTested words.now at k.0 result seen.old seen.new }
{
    if words[at + 1] != 0 {
        return false;
    }
    if words[at + 2] != NO_PLANE {
        return false;
    }
    if words[at + 3] != 1 {
        return false;
    }
    gather_past(words, at, 1, past, seen);
    wide(words[at + 4]) == k.0
}

// The boundary of an edge: with the count as a literal the loop is two tests and no loop.
fn edge_sound(
    words: &[u16],
    at: usize,
    earlier: &[u16],
    spacing: Spacing,
    e: ElementId,
    past: &[u16; MASK],
    seen: &mut [u16; BOUNDARY],
) -> bool
    requires { RowThere words.now at earlier.now spacing e.0 past.now seen.old }
    ensures { EdgeTested (take row_width (drop at words.now)) earlier.now spacing e.0 result seen.old seen.new }
{
    if words[at + 3] != 2 {
        return false;
    }
    gather_past(words, at, 2, past, seen);
    numbers_fit(words, at + HEAD, at + HEAD + 2, earlier, spacing, e, 1)
}

// The boundary of a face or a body: it is read only once its count is known to fit.
fn higher_sound(
    words: &[u16],
    at: usize,
    earlier: &[u16],
    spacing: Spacing,
    e: ElementId,
    d: usize,
    rank: usize,
    met: &mut [u32; ELEMENTS],
    past: &[u16; MASK],
    seen: &mut [u16; BOUNDARY],
) -> bool
    requires { HigherReady words.now at earlier.now spacing e.0 rank met.old past.now seen.old }
    ensures { RowTested (polytope_words desk (known_rows earlier.now spacing) d e.0 rank) words.now at e.0 result met.new seen.old seen.new }
{
    let n = wide(words[at + 3]);
    if BOUNDARY < n {
        return false;
    }
    gather_past(words, at, n, past, seen);
    boundary_sound(words, at + HEAD, n, earlier, spacing, e, d, rank, met)
}

// The boundary of a polytope, by its rank.
fn polytope_sound(
    words: &[u16],
    at: usize,
    earlier: &[u16],
    spacing: Spacing,
    e: ElementId,
    d: usize,
    rank: usize,
    met: &mut [u32; ELEMENTS],
    past: &[u16; MASK],
    seen: &mut [u16; BOUNDARY],
) -> bool
    requires { RowReady words.now at earlier.now spacing e.0 met.old past.now seen.old }
    ensures { RowTested (polytope_words desk (known_rows earlier.now spacing) d e.0 rank) words.now at e.0 result met.new seen.old seen.new }
{
    if rank == 1 {
        return edge_sound(words, at, earlier, spacing, e, past, seen);
    }
    higher_sound(words, at, earlier, spacing, e, d, rank, met, past, seen)
}

// One row, where vertex k is the next to be named. Rows are tested by kind, so that the count of a vertex or an edge is a literal.
pub fn row_sound(
    words: &[u16],
    at: usize,
    earlier: &[u16],
    spacing: Spacing,
    e: ElementId,
    d: usize,
    h: usize,
    k: VertexId,
    met: &mut [u32; ELEMENTS],
    past: &[u16; MASK],
    seen: &mut [u16; BOUNDARY],
) -> bool
    requires { RowReady words.now at earlier.now spacing e.0 met.old past.now seen.old }
    ensures { RowTested (row_sound desk (known_rows earlier.now spacing) d h k.0 e.0) words.now at e.0 result met.new seen.old seen.new }
{
    let rank = wide(words[at]);
    if rank == 0 {
        return corner_sound(words, at, k, past, seen);
    }
    if 1 < words[at + 1] {
        return false;
    }
    if d < rank {
        return false;
    }
    if !polytope_sound(words, at, earlier, spacing, e, d, rank, met, past, seen) {
        return false;
    }
    let plane = wide(words[at + 2]);
    let mark = wide(words[at + 1]);
    facet_sound(d, h, rank, plane, mark)
}

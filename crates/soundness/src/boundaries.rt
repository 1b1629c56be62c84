// A boundary that is sound: its numbers, and test 7 in the same pass, with a word for each corner that the edges of a face meet.
ghost use Rattle.std.specs.Prelude.{◌+◌, ◌<◌, ◌≡◌, take, drop};
ghost use Rattle.rules.specs.Limits.{desk};
ghost use Rattle.space.specs.Numbers.{NumberBelow};
ghost use Rattle.space.specs.Closed.{stamp_room};
ghost use Rattle.soundness.specs.Known.{known_rows};
ghost use Rattle.soundness.specs.Words.{number_fits, numbers_fit, few_words, face_words, stamp_of, boundary_sound};
ghost use Rattle.soundness.specs.Tests.{NumberReady, NumbersReady, EdgesReady, NumbersThere, BoundaryTested};

use crate::known::{join_ends, meet_ends, rank_known};
use crate::row::Spacing;
use rules::ElementId;
use space::closed::{INSIDE, Joined, few_edges};
use space::words::{ELEMENTS, wide};

// An element's stamp is above every word that was written for the elements before it: a word of a face is at most INSIDE above the face's own.
fn stamp_of(e: ElementId) -> u32
    requires { e.0 < desk.elements }
    ensures { NumberBelow result (stamp_of e.0) stamp_room }
{
    ((INSIDE + 1) * e.0 + 1) as u32
}

// A boundary number is no lower than the least that it may be, below the element's own, and of rank one less: only a number below is one whose rank can be read.
fn number_fits(
    earlier: &[u16],
    spacing: Spacing,
    x: usize,
    low: usize,
    e: ElementId,
    rank: usize,
) -> bool
    requires { NumberReady earlier.now spacing e.0 }
    ensures { result ≡ number_fits desk (known_rows earlier.now spacing) e.0 rank low x }
{
    if x < low {
        return false;
    }
    if e.0 <= x {
        return false;
    }
    rank_known(earlier, spacing, ElementId(x)) + 1 == rank
}

// The boundary numbers rise strictly, and each fits.
pub fn numbers_fit(
    words: &[u16],
    from: usize,
    to: usize,
    earlier: &[u16],
    spacing: Spacing,
    e: ElementId,
    rank: usize,
) -> bool
    requires { NumbersReady words.now from to earlier.now spacing e.0 }
    ensures { result ≡ numbers_fit desk (known_rows earlier.now spacing) e.0 rank (drop from (take to words.now)) }
{
    let mut low = 0usize;
    for &word in &words[from..to] {
        let x = wide(word);
        if !number_fits(earlier, spacing, x, low, e, rank) {
            return false;
        }
        low = x + 1;
    }
    true
}

// The numbers of a face of few edges: the ends of each are met in the same pass.
fn few_fits(
    edges: &[u16],
    earlier: &[u16],
    spacing: Spacing,
    e: ElementId,
    met: &mut [u32; ELEMENTS],
) -> bool
    requires { EdgesReady edges.now earlier.now spacing e.0 met.old }
    ensures { BoundaryTested (few_words desk (known_rows earlier.now spacing) e.0 edges.now) e.0 result met.new }
{
    let stamp = stamp_of(e);
    let mut low = 0usize;
    let mut twice = 0usize;
    for &word in edges {
        let x = wide(word);
        if !number_fits(earlier, spacing, x, low, e, 2) {
            return false;
        }
        twice += meet_ends(earlier, spacing, ElementId(x), met, stamp);
        low = x + 1;
    }
    twice == edges.len()
}

// The numbers of any other face: each edge joins paths in the same pass.
fn face_fits(
    edges: &[u16],
    earlier: &[u16],
    spacing: Spacing,
    e: ElementId,
    met: &mut [u32; ELEMENTS],
) -> bool
    requires { EdgesReady edges.now earlier.now spacing e.0 met.old }
    ensures { BoundaryTested (face_words desk (known_rows earlier.now spacing) e.0 edges.now) e.0 result met.new }
{
    let stamp = stamp_of(e);
    let mut low = 0usize;
    let mut twice = 0usize;
    for (i, &word) in edges.iter().enumerate() {
        let x = wide(word);
        if !number_fits(earlier, spacing, x, low, e, 2) {
            return false;
        }
        match join_ends(earlier, spacing, ElementId(x), met, stamp) {
            Joined::Thrice => return false,
            Joined::Closes => {
                if i + 1 < edges.len() {
                    return false;
                }
                return twice + 2 == edges.len();
            }
            Joined::Met(before) => twice += before,
        }
        low = x + 1;
    }
    edges.is_empty()
}

// More of them than the rank, rising, earlier, of rank one less, and closed: those of a face or a body.
pub fn boundary_sound(
    words: &[u16],
    at: usize,
    n: usize,
    earlier: &[u16],
    spacing: Spacing,
    e: ElementId,
    d: usize,
    rank: usize,
    met: &mut [u32; ELEMENTS],
) -> bool
    requires { NumbersThere words.now at n earlier.now spacing e.0 rank met.old }
    ensures { BoundaryTested (boundary_sound desk (known_rows earlier.now spacing) d e.0 rank (drop at (take (at + n) words.now))) e.0 result met.new }
{
    if n <= rank {
        return false;
    }
    if rank != 2 {
        return numbers_fit(words, at, at + n, earlier, spacing, e, rank);
    }
    if n <= few_edges(d) {
        return few_fits(&words[at..at + n], earlier, spacing, e, met);
    }
    face_fits(&words[at..at + n], earlier, spacing, e, met)
}

// Test 7: whether the edges of a face make one ring. Few edges are counted: how often each corner is met. More of them join paths.
ghost use Rattle.std.specs.Prelude.{suc, ◌+◌, ◌<◌, ◌≡◌, get_or};
ghost use Rattle.rules.specs.Limits.{desk};
ghost use Rattle.space.specs.Numbers.{NumberBelow};
ghost use Rattle.space.specs.Closed.{few, met_twice, far_end, inside, join_code, ring_raw, closed_raw};
ghost use Rattle.space.specs.Closed.{MeetReady, CornerMet, BothReady, BothMet, EdgeReady, EndsMet, PathReady, PathsReady, PathsJoined, JoinEndsReady, EndsJoined, FaceReady, BoundaryReady};

use crate::corner_words::CornerWords;
use crate::rows::boundary_at;
use crate::words::{ELEMENTS, wide};
use rules::ElementId;

// What a corner's word is above the stamp once it is met twice: no path ends there.
pub const INSIDE: usize = ELEMENTS;

// What an edge does to the paths that end where it does.
#[derive(Clone, Copy, Debug, PartialEq, Eq)]
pub enum Joined {
    // It joins them; so many of its ends were met before.
    Met(usize),
    // Both ends are those of one path.
    Closes,
    // One end is met for the third time.
    Thrice,
}

// How many edges are few in d dimensions: a ring has two edges at least, and from three dimensions on three, for no two edges share both ends.
pub fn few_edges(d: usize) -> usize
    ensures { result ≡ few d }
{
    if d < 3 { 3 } else { 5 }
}

// A corner is met: 1 for the second time. Below the stamp its word says not yet, at the stamp once.
pub fn meet<W: CornerWords>(met: &mut W, v: usize, stamp: u32) -> usize
    requires ready { MeetReady v stamp }
    requires fits { stamp + 1 < W.top }
    ensures { CornerMet stamp (W.words met.old) v result (W.words met.new) }
{
    let m = met.word(v);
    met.put(v, stamp + u32::from(stamp <= m));
    usize::from(m == stamp)
}

// Two corners are met: how many of them for the second time.
pub fn meet_both<W: CornerWords>(a: usize, b: usize, met: &mut W, stamp: u32) -> usize
    requires ready { BothReady a b stamp }
    requires fits { stamp + 1 < W.top }
    ensures { BothMet stamp (W.words met.old) a b result (W.words met.new) }
{
    let first = meet(met, a, stamp);
    let second = meet(met, b, stamp);
    first + second
}

// Both ends of an edge are met, where one face alone is tested: its words are cleared, and the stamp is 1.
fn meet_ends_in_face(elements: &[u16], e: ElementId, met: &mut [u8; ELEMENTS]) -> usize
    requires { EdgeReady elements.now e.0 1 }
    ensures { EndsMet 1 elements.now met.old e.0 result met.new }
{
    let a = wide(boundary_at(elements, e, 0));
    let b = wide(boundary_at(elements, e, 1));
    meet_both(a, b, met, 1)
}

// Whether each corner met lies on exactly two of the edges: n edges have 2n ends, so it does exactly when n of them are met for the second time.
fn each_twice(elements: &[u16], list: &[u16]) -> bool
    requires { FaceReady elements.now list.now }
    ensures { result ≡ met_twice elements.now list.now }
{
    let mut met = [0u8; ELEMENTS];
    let mut twice = 0usize;
    for &x in list {
        twice += meet_ends_in_face(elements, ElementId(wide(x)), &mut met);
    }
    twice == list.len()
}

// The other end of the path that ends in v: v itself where it is not met yet, INSIDE where it is met twice.
fn far_end<W: CornerWords>(paths: &W, v: usize, stamp: u32) -> usize
    requires { PathReady stamp (W.words paths.now) v }
    ensures { NumberBelow result (far_end stamp (W.words paths.now) v) (suc inside) }
{
    let m = paths.word(v);
    if m < stamp {
        return v;
    }
    (m - stamp) as usize
}

// What an edge from a to b does to the paths that end there, x and y being their other ends.
fn joins(a: usize, b: usize, x: usize, y: usize) -> Joined
    ensures { result ≡ join_code a b x y }
{
    if x == INSIDE || y == INSIDE {
        return Joined::Thrice;
    }
    if x == b {
        return Joined::Closes;
    }
    Joined::Met(usize::from(x != a) + usize::from(y != b))
}

// An edge from a to b joins the two paths that end there, or nothing is written.
pub fn join_paths<W: CornerWords>(a: usize, b: usize, paths: &mut W, stamp: u32) -> Joined
    requires ready { PathsReady a b stamp (W.words paths.old) }
    requires fits { stamp + inside < W.top }
    ensures { PathsJoined stamp (W.words paths.old) a b result (W.words paths.new) }
{
    let x = far_end(paths, a, stamp);
    let y = far_end(paths, b, stamp);
    let joined = joins(a, b, x, y);
    if let Joined::Met(_) = joined {
        let inside = stamp + INSIDE as u32;
        paths.put(a, inside);
        paths.put(b, inside);
        paths.put(x, stamp + y as u32);
        paths.put(y, stamp + x as u32);
    }
    joined
}

// The edge that a row holds joins its paths.
fn join_ends_in_face(elements: &[u16], e: ElementId, paths: &mut [u16; ELEMENTS]) -> Joined
    requires { JoinEndsReady elements.now e.0 1 paths.old }
    ensures { EndsJoined 1 elements.now paths.old e.0 result paths.new }
{
    let a = wide(boundary_at(elements, e, 0));
    let b = wide(boundary_at(elements, e, 1));
    join_paths(a, b, paths, 1)
}

// Whether the edges make one ring: no corner is met three times, none but the last edge closes a path, and then n ends were met for the second time.
fn is_ring(elements: &[u16], list: &[u16]) -> bool
    requires { FaceReady elements.now list.now }
    ensures { result ≡ ring_raw elements.now list.now }
{
    let n = list.len();
    let mut paths = [0u16; ELEMENTS];
    let mut twice = 0usize;
    for (k, &x) in list.iter().enumerate() {
        match join_ends_in_face(elements, ElementId(wide(x)), &mut paths) {
            Joined::Thrice => return false,
            Joined::Closes => {
                if k + 1 < n {
                    return false;
                }
                return twice + 2 == n;
            }
            Joined::Met(met) => twice += met,
        }
    }
    n == 0
}

// An edge has two ends, a face is one ring; nothing is asked of the other ranks.
pub fn is_closed(counts: &[u16], elements: &[u16], rank: usize, list: &[u16]) -> bool
    requires { BoundaryReady counts.now elements.now rank list.now }
    ensures { result ≡ closed_raw (get_or counts.now 0 0) elements.now rank list.now }
{
    let n = list.len();
    if rank == 1 {
        return n == 2;
    }
    if rank != 2 {
        return true;
    }
    if n <= few_edges(wide(counts[0])) {
        return each_twice(elements, list);
    }
    is_ring(elements, list)
}

// Rules 6 to 8: what a cut adds for an element whose boundary has answered, and the element's own answer.
ghost use Rattle.std.specs.Prelude.{◌≡◌, eqb, get_or, length, if◌then◌else◌};
ghost use Rattle.rules.specs.Limits.{no_plane};
ghost use Rattle.rules.specs.Replies.{is_kept};
ghost use Rattle.gathered.specs.Cutting.{PlaneReady, IntersectionReady, IntersectionMade, RowReadable, OwnTold, SideReady, SideMade, Rule7Ready, Rule7Done, Rule6Ready, Rule6Done};

use crate::sets::{Room, Set};
use rules::{Cutter, ElementCutOutput, ElementId, HyperplaneId, PolytopeFate, Reply};
use space::words::{NO_PLANE, WIDTH, wide};
use space::{memo, rows};

fn is_kept(fate: PolytopeFate) -> bool
    ensures { result ≡ is_kept fate }
{
    matches!(fate, PolytopeFate::Keep)
}

// The divider's hyperplane if the rank is the dimension.
fn plane_of_intersection(counts: &[u16], rank: usize, number: HyperplaneId) -> u16
    requires { PlaneReady counts.now number.0 }
    ensures { result ≡ (if eqb rank (get_or counts.now 0 0) then number.0 else no_plane) }
{
    if rank == wide(counts[0]) {
        number.0 as u16
    } else {
        NO_PLANE
    }
}

// The gathered intersections form an element of the rank below, not primordial.
fn new_intersection(
    counts: &mut [u16],
    elements: &mut [u16],
    index: &mut [u16],
    rank: usize,
    k: Cutter,
    set: &Set,
) -> Reply<Option<ElementId>>
    requires { IntersectionReady counts.old elements.old index.old rank k set.now }
    ensures { IntersectionMade counts.old elements.old rank k set.now result
        counts.new elements.new index.new }
{
    let number = k.number;
    let plane = plane_of_intersection(counts, rank, number);
    let numbers = set.as_slice();
    memo::add_polytope(counts, elements, index, rank - 1, numbers, plane, false)
}

// Whether a list is the boundary that element e has already.
fn is_own(elements: &[u16], e: ElementId, list: &[u16]) -> bool
    requires { RowReadable elements.now e.0 }
    ensures { OwnTold elements.now e.0 list.now (length list.now) result }
{
    let from = e.0 * WIDTH + 4;
    let size = rows::size_of(elements, e);
    &elements[from..from + size] == list
}

// A side's set and the intersection, with the old rank, hyperplane and mark; a removed side is none.
fn side_of_cut(
    counts: &mut [u16],
    elements: &mut [u16],
    index: &mut [u16],
    e: ElementId,
    rank: usize,
    fate: PolytopeFate,
    set: &mut Set,
    x: Option<ElementId>,
) -> Reply<Option<ElementId>>
    requires { SideReady counts.old elements.old index.old rank e.0 set.old x }
    ensures { SideMade counts.old elements.old rank e.0 (is_kept fate) set.old x result
        counts.new elements.new index.new set.new }
{
    if !is_kept(fate) {
        return Ok(None);
    }
    let plane = rows::plane_of(elements, e);
    let mark = rows::is_primordial(elements, e);
    set.include(x);
    let numbers = set.as_slice();
    // a side that lost nothing is the element itself, with no search for its row
    if is_own(elements, e, numbers) {
        return Ok(Some(e));
    }
    memo::add_polytope(counts, elements, index, rank, numbers, plane, mark)
}

// The intersection is known: then inside, then outside.
fn rule7(
    counts: &mut [u16],
    elements: &mut [u16],
    index: &mut [u16],
    e: ElementId,
    rank: usize,
    k: Cutter,
    room: &mut Room,
    x: Option<ElementId>,
) -> Reply<ElementCutOutput>
    requires { Rule7Ready counts.old elements.old index.old rank e.0 k room.old x }
    ensures { Rule7Done counts.old elements.old rank e.0 k room.old x result
        counts.new elements.new index.new room.new }
{
    let params = k.params;
    let fate_inside = params.inside;
    let fate_outside = params.outside;
    let inside = side_of_cut(
        counts,
        elements,
        index,
        e,
        rank,
        fate_inside,
        &mut room.inside,
        x,
    )?;
    let outside = side_of_cut(
        counts,
        elements,
        index,
        e,
        rank,
        fate_outside,
        &mut room.outside,
        x,
    )?;
    Ok(ElementCutOutput::NonFlush {
        inside,
        outside,
        intersection: x,
    })
}

// More than one flush answer make the element flush, exactly one is the intersection; without one it is worked out, whichever sides are kept.
pub fn rule6(
    counts: &mut [u16],
    elements: &mut [u16],
    index: &mut [u16],
    e: ElementId,
    rank: usize,
    k: Cutter,
    room: &mut Room,
) -> Reply<ElementCutOutput>
    requires { Rule6Ready counts.old elements.old index.old rank e.0 k room.old }
    ensures { Rule6Done counts.old elements.old rank e.0 k room.old result
        counts.new elements.new index.new room.new }
{
    let flushes = room.flushes;
    if 1 < flushes {
        return Ok(ElementCutOutput::Flush);
    }
    if flushes == 1 {
        let x = Some(room.flush);
        return rule7(counts, elements, index, e, rank, k, room, x);
    }
    let x = new_intersection(counts, elements, index, rank, k, &room.intersections)?;
    rule7(counts, elements, index, e, rank, k, room, x)
}

// What an element answers, and that it is known from then on: nothing of it is on the stack while a lower rank works.
ghost use Rattle.cut.specs.Rounds.{LowReady, ElementAsked};
ghost use Rattle.cut.specs.Higher.{GatherReady, KnownGathered, HigherReady, HigherAsked};

use crate::known::{KNOWN, keep, output_at};
use gathered::answer;
use gathered::sets::Room;
use rules::{Cutter, ElementId, Reply};
use space::chains::INDEX;
use space::rows;
use space::words::{COUNTS, wide};

// A vertex element or an edge.
pub fn answer_low(
    counts: &mut [u16; COUNTS],
    points: &mut [f64],
    elements: &mut [u16],
    index: &mut [u16; INDEX],
    known: &mut [u32; KNOWN],
    room: &mut Room,
    e: ElementId,
    rank: usize,
    k: Cutter,
) -> Reply<()>
    requires { LowReady counts.old points.old elements.old index.old known.old room.old rank e.0 k }
    ensures { ElementAsked counts.old points.old elements.old known.old room.old rank e.0 k result
        counts.new points.new elements.new index.new known.new room.new }
{
    let low = ends::cut_low(counts, points, elements, index, e, rank, k, room);
    keep(known, e, low)
}

// What the boundary of element e has answered, from what is known.
fn gather_known(elements: &[u16], known: &[u32; KNOWN], room: &mut Room, e: ElementId)
    requires { GatherReady elements.now known.now room.old e.0 }
    ensures { KnownGathered elements.now known.now room.old e.0 room.new }
{
    room.clear();
    let n = rows::size_of(elements, e);
    for i in 0..n {
        let b = ElementId(wide(rows::boundary_at(elements, e, i)));
        let a = output_at(known, b);
        room.gather_in(b, a);
    }
}

// An element of rank 2 or more, once all of its boundary was asked.
pub fn answer_higher(
    counts: &mut [u16; COUNTS],
    elements: &mut [u16],
    index: &mut [u16; INDEX],
    known: &mut [u32; KNOWN],
    room: &mut Room,
    e: ElementId,
    rank: usize,
    k: Cutter,
) -> Reply<()>
    requires { HigherReady counts.old elements.old index.old known.old room.old rank e.0 k }
    ensures { HigherAsked counts.old elements.old known.old room.old rank e.0 k result
        counts.new elements.new index.new known.new room.new }
{
    gather_known(elements, known, room, e);
    let whole = answer::rule6(counts, elements, index, e, rank, k, room);
    keep(known, e, whole)
}

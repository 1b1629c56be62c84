// Rule 5: an element asks for its boundary, and the boundary asks for each element. An element asked twice in a cut is answered from what is known.
ghost use Rattle.cut.specs.Rounds.{AskReady, RoundReady, ElementAsked, BoundaryCut};

use crate::known::{KNOWN, is_known};
use crate::ranks::{answer_higher, answer_low};
use gathered::sets::Room;
use rules::{Cutter, ElementId, Reply};
use space::chains::INDEX;
use space::rows;
use space::words::{COUNTS, wide};

// A refusal, or the answer is known from then on.
#[cycle(cut_boundary_cut_element)]
pub fn cut_element(
    counts: &mut [u16; COUNTS],
    points: &mut [f64],
    elements: &mut [u16],
    index: &mut [u16; INDEX],
    known: &mut [u32; KNOWN],
    room: &mut Room,
    e: ElementId,
    rank: usize,
    k: Cutter,
) -> Reply<()>
    requires { AskReady counts.old points.old elements.old index.old known.old room.old rank e.0 k }
    ensures { ElementAsked counts.old points.old elements.old known.old room.old rank e.0 k result
        counts.new points.new elements.new index.new known.new room.new }
{
    if is_known(known, e) {
        return Ok(());
    }
    if rank < 2 {
        return answer_low(counts, points, elements, index, known, room, e, rank, k);
    }
    cut_boundary(counts, points, elements, index, known, room, e, rank, k)?;
    answer_higher(counts, elements, index, known, room, e, rank, k)
}

// In rising number; a refusal ends the round. What is answered stays known, so nothing is held from one to the next.
#[cycle(cut_boundary_cut_element)]
fn cut_boundary(
    counts: &mut [u16; COUNTS],
    points: &mut [f64],
    elements: &mut [u16],
    index: &mut [u16; INDEX],
    known: &mut [u32; KNOWN],
    room: &mut Room,
    e: ElementId,
    rank: usize,
    k: Cutter,
) -> Reply<()>
    requires { RoundReady counts.old points.old elements.old index.old known.old room.old rank e.0 k }
    ensures { BoundaryCut counts.old points.old elements.old known.old room.old rank e.0 k result
        counts.new points.new elements.new index.new known.new room.new }
{
    let n = rows::size_of(elements, e);
    for i in 0..n {
        let b = ElementId(wide(rows::boundary_at(elements, e, i)));
        cut_element(counts, points, elements, index, known, room, b, rank - 1, k)?;
    }
    Ok(())
}

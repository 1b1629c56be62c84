// A list of cuts in one call: one soundness test and one index serve all of them.
ghost use Rattle.std.specs.Prelude.{◌≡◌};
ghost use Rattle.rules.specs.Limits.{desk};
ghost use Rattle.rules.specs.Held.{memory_of};
ghost use Rattle.rules.specs.CutLists.{list_fits, cut_list_reply};
ghost use Rattle.cut.specs.Lists.{cut_list_of, RowReady, params_at, ListReady, PositionReady, CutMade, CutsMade};

use crate::answers::output_word;
use crate::sound::cut_sound;
use hypermath::hyperplane_at;
use rules::{CutListReply, CutParams, ElementId, HyperplaneId, PolytopeFate, Refusal, Reply};
use soundness::sound::memory_indexed;
use space::chains::INDEX;
use space::memory::Memory;
use space::words::{PLANE_WIDTH, wide};

// A list has no more cuts.
const MOST_CUTS: usize = 64;

// 26: more cuts than the limit, or slices that do not belong together.
fn list_fits(dividers: &[f64], kept: &[u8], roots: &[u16]) -> bool
    ensures { result ≡ list_fits desk (cut_list_of dividers.now kept.now roots.now) }
{
    let n = roots.len();
    if MOST_CUTS < n {
        return false;
    }
    if kept.len() == n {
        return dividers.len() == n * PLANE_WIDTH;
    }
    false
}

// Bit 0 of the byte keeps the inside, bit 1 the outside.
fn params_at(dividers: &[f64], kept: &[u8], i: usize) -> CutParams
    requires { RowReady dividers.now kept.now i }
    ensures { result ≡ params_at dividers.now kept.now i }
{
    let divider = hyperplane_at(dividers, HyperplaneId(i));
    let byte = kept[i];
    let inside = PolytopeFate::from(byte % 2 == 1);
    let outside = PolytopeFate::from(byte / 2 % 2 == 1);
    CutParams {
        divider,
        inside,
        outside,
    }
}

// The cut at a position is refused, or its answer is written there, as one number.
fn cut_at(
    counts: &mut [u16],
    points: &mut [f64],
    planes: &mut [f64],
    elements: &mut [u16],
    index: &mut [u16; INDEX],
    dividers: &[f64],
    kept: &[u8],
    roots: &[u16],
    answers: &mut [u64],
    i: usize,
) -> Reply<()>
    requires { PositionReady counts.old points.old planes.old elements.old index.old (cut_list_of dividers.now kept.now roots.now) answers.old i }
    ensures { CutMade counts.old points.old planes.old elements.old
        (cut_list_of dividers.now kept.now roots.now) answers.old i result
        counts.new points.new planes.new elements.new index.new answers.new }
{
    let params = params_at(dividers, kept, i);
    let root = ElementId(wide(roots[i]));
    let answer = cut_sound(counts, points, planes, elements, index, params, root)?;
    answers[i] = output_word(answer.output, answer.warning);
    Ok(())
}

// The cuts in turn; the first that is refused ends them.
fn cuts_in_turn(
    counts: &mut [u16],
    points: &mut [f64],
    planes: &mut [f64],
    elements: &mut [u16],
    index: &mut [u16; INDEX],
    dividers: &[f64],
    kept: &[u8],
    roots: &[u16],
    answers: &mut [u64],
) -> CutListReply
    requires { ListReady counts.old points.old planes.old elements.old index.old (cut_list_of dividers.now kept.now roots.now) answers.old }
    ensures { CutsMade counts.old points.old planes.old elements.old
        (cut_list_of dividers.now kept.now roots.now) answers.old result
        counts.new points.new planes.new elements.new answers.new }
{
    let n = roots.len();
    for i in 0..n {
        let made = cut_at(
            counts, points, planes, elements, index, dividers, kept, roots, answers, i,
        );
        if let Err(refusal) = made {
            return CutListReply::Stopped {
                refusal,
                position: i,
            };
        }
    }
    CutListReply::Answered(n)
}

// 3, then 26, then 12 for the whole list, and then each cut with its own refusals.
pub fn cut_all(
    counts: &mut [u16],
    points: &mut [f64],
    planes: &mut [f64],
    elements: &mut [u16],
    dividers: &[f64],
    kept: &[u8],
    roots: &[u16],
    answers: &mut [u64],
) -> CutListReply
    ensures { (result, answers.new, memory_of counts.new points.new planes.new elements.new)
        ≡ cut_list_reply desk (cut_list_of dividers.now kept.now roots.now) answers.old
        (memory_of counts.old points.old planes.old elements.old) }
{
    let mut index = [0u16; INDEX];
    let memory = Memory {
        counts,
        points,
        planes,
        elements,
    };
    if !memory_indexed(memory, &mut index) {
        return CutListReply::Refused(Refusal::NotSound);
    }
    if !list_fits(dividers, kept, roots) {
        return CutListReply::Refused(Refusal::ListLong);
    }
    if answers.len() < roots.len() {
        return CutListReply::Refused(Refusal::RoomShort);
    }
    cuts_in_turn(
        counts, points, planes, elements, &mut index, dividers, kept, roots, answers,
    )
}

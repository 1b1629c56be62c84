// The cut: rules 1 to 8 over the lent memory. A cut adds entries to a table; what the divider misses is its old entry.
#![tactic(auto)]

pub mod answers;
mod elements;
mod known;
pub mod lists;
mod ranks;
pub mod sound;
mod whole;

ghost use Rattle.std.specs.Prelude.{◌≡◌};
ghost use Rattle.rules.specs.Limits.{desk};
ghost use Rattle.rules.specs.Held.{memory_of};
ghost use Rattle.rules.specs.Replies.{cut_by, cut_reply};

use rules::{CutParams, ElementAnswer, ElementId, Hyperplane, PolytopeFate, Refusal, Reply};
use sound::cut_sound;
use soundness::sound::memory_indexed;
use space::chains::INDEX;
use space::memory::Memory;

// 3, and then a cut of a sound memory.
pub fn cut(
    counts: &mut [u16],
    points: &mut [f64],
    planes: &mut [f64],
    elements: &mut [u16],
    params: CutParams,
    root: ElementId,
) -> Reply<ElementAnswer>
    ensures { (result, memory_of counts.new points.new planes.new elements.new)
        ≡ cut_reply desk params root.0 (memory_of counts.old points.old planes.old elements.old) }
{
    let mut index = [0u16; INDEX];
    let memory = Memory {
        counts,
        points,
        planes,
        elements,
    };
    if !memory_indexed(memory, &mut index) {
        return Err(Refusal::NotSound);
    }
    cut_sound(counts, points, planes, elements, &mut index, params, root)
}

// Keeps what lies inside.
pub fn carve(
    counts: &mut [u16],
    points: &mut [f64],
    planes: &mut [f64],
    elements: &mut [u16],
    divider: Hyperplane,
    root: ElementId,
) -> Reply<ElementAnswer>
    ensures { (result, memory_of counts.new points.new planes.new elements.new)
        ≡ cut_reply desk (cut_by divider PolytopeFate.Keep PolytopeFate.Remove) root.0 (memory_of counts.old points.old planes.old elements.old) }
{
    let params = CutParams {
        divider,
        inside: PolytopeFate::Keep,
        outside: PolytopeFate::Remove,
    };
    cut(counts, points, planes, elements, params, root)
}

// Keeps what lies on either side.
pub fn slice(
    counts: &mut [u16],
    points: &mut [f64],
    planes: &mut [f64],
    elements: &mut [u16],
    divider: Hyperplane,
    root: ElementId,
) -> Reply<ElementAnswer>
    ensures { (result, memory_of counts.new points.new planes.new elements.new)
        ≡ cut_reply desk (cut_by divider PolytopeFate.Keep PolytopeFate.Keep) root.0 (memory_of counts.old points.old planes.old elements.old) }
{
    let params = CutParams {
        divider,
        inside: PolytopeFate::Keep,
        outside: PolytopeFate::Keep,
    };
    cut(counts, points, planes, elements, params, root)
}

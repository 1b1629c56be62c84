// A cut of a memory that is known to be sound: 4, 5, rule 1, and the rules from 2 on. The index is lent, and after an answer it is of the rows again.
ghost use Rattle.std.specs.Prelude.{false, ◌≡◌, None};
ghost use Rattle.rules.specs.Replies.{answer_with};
ghost use Rattle.cut.specs.Whole.{SoundIndexed, SoundCut};

use crate::whole::cut_finite;
use rules::{CutParams, ElementAnswer, ElementCutOutput, ElementId, Reply};
use soundness::asked::{Asking, sound_asked};
use space::chains::INDEX;

// Rule 1: the root is given on one side, and no corner is tested.
fn untested(inside: Option<ElementId>, outside: Option<ElementId>) -> ElementAnswer
    ensures { result ≡ answer_with (ElementCutOutput.NonFlush inside outside None) false }
{
    let output = ElementCutOutput::NonFlush {
        inside,
        outside,
        intersection: None,
    };
    ElementAnswer {
        output,
        warning: false,
    }
}

pub fn cut_sound(
    counts: &mut [u16],
    points: &mut [f64],
    planes: &mut [f64],
    elements: &mut [u16],
    index: &mut [u16; INDEX],
    params: CutParams,
    root: ElementId,
) -> Reply<ElementAnswer>
    requires { SoundIndexed counts.old points.old planes.old elements.old index.old }
    ensures { SoundCut counts.old points.old planes.old elements.old params root.0 result
        counts.new points.new planes.new elements.new index.new }
{
    match sound_asked(counts, params.divider, root)? {
        Asking::AllInside => Ok(untested(Some(root), None)),
        Asking::AllOutside => Ok(untested(None, Some(root))),
        Asking::Finite => cut_finite(counts, points, planes, elements, index, params, root),
    }
}

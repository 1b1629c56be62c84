// Rules 2 to 8, and all memory given back where they refuse.
ghost use Rattle.std.specs.Prelude.{◌≡◌, length};
ghost use Rattle.cut.specs.Whole.{CutReady, CutTried, WholeCut};

use crate::elements::cut_element;
use crate::known::{KNOWN, output_at};
use gathered::sets::Room;
use rules::{CutParams, Cutter, ElementAnswer, ElementId, Reply};
use space::chains::INDEX;
use space::memo::add_hyperplane;
use space::restore::restore;
use space::rows::rank_of;
use space::words::COUNTS;

// The counts in an array: lent so, they cost each rank of the cut one word.
fn counts_of(counts: &[u16]) -> [u16; COUNTS]
    requires { length counts.now ≡ 4 }
    ensures { result ≡ counts.now }
{
    [counts[0], counts[1], counts[2], counts[3]]
}

// Back in the memory, after a refusal too: restoring begins at them.
fn put_counts(counts: &mut [u16], used: [u16; COUNTS])
    requires { length counts.old ≡ 4 }
    ensures { counts.new ≡ used }
{
    counts[0] = used[0];
    counts[1] = used[1];
    counts[2] = used[2];
    counts[3] = used[3];
}

// The divider is matched or appended first, also for a flush or vertex root.
fn cut_named(
    counts: &mut [u16],
    points: &mut [f64],
    planes: &mut [f64],
    elements: &mut [u16],
    index: &mut [u16; INDEX],
    params: CutParams,
    root: ElementId,
) -> Reply<ElementAnswer>
    requires { CutReady counts.old points.old planes.old elements.old index.old params.divider root.0 }
    ensures { CutTried counts.old points.old planes.old elements.old params root.0 result
        counts.new points.new planes.new elements.new index.new }
{
    let number = add_hyperplane(counts, planes, params.divider)?;
    let rank = rank_of(elements, root);
    let k = Cutter { params, number };
    let mut known = [0u32; KNOWN];
    let mut room = Room::new();
    let mut used = counts_of(counts);
    let asked = cut_element(
        &mut used, points, elements, index, &mut known, &mut room, root, rank, k,
    );
    put_counts(counts, used);
    asked?;
    let output = output_at(&known, root);
    let warning = room.has_warning();
    Ok(ElementAnswer { output, warning })
}

// A refusal clears what was appended, the hyperplane of rule 2 included.
pub fn cut_finite(
    counts: &mut [u16],
    points: &mut [f64],
    planes: &mut [f64],
    elements: &mut [u16],
    index: &mut [u16; INDEX],
    params: CutParams,
    root: ElementId,
) -> Reply<ElementAnswer>
    requires { CutReady counts.old points.old planes.old elements.old index.old params.divider root.0 }
    ensures { WholeCut counts.old points.old planes.old elements.old params root.0 result
        counts.new points.new planes.new elements.new index.new }
{
    let e = counts[1];
    let v = counts[2];
    let p = counts[3];
    match cut_named(counts, points, planes, elements, index, params, root) {
        Err(refusal) => {
            restore(counts, points, planes, elements, e, v, p);
            Err(refusal)
        }
        Ok(answer) => Ok(answer),
    }
}

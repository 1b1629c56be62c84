// All that lies below a root, in one pass downwards: a boundary has earlier numbers, so each element is gone by once.
ghost use Rattle.std.specs.Prelude.{◌≡◌};
ghost use Rattle.elements.specs.Marks.{marking_all};
ghost use Rattle.elements.specs.Below.{boundary_numbers, BoundaryReady, Used, Onward, Below};

use crate::marks::Marks;
use rules::ElementId;
use space::rows::{boundary_at, rank_of, size_of};
use space::words::wide;

pub fn mark_boundary(elements: &[u16], e: ElementId, marks: &mut Marks)
    requires { BoundaryReady elements.now e.0 }
    ensures { marks.new.words ≡ marking_all marks.old.words (boundary_numbers elements.now e.0) }
{
    let n = size_of(elements, e);
    for i in 0..n {
        let x = wide(boundary_at(elements, e, i));
        marks.mark(ElementId(x));
    }
}

// A vertex has no boundary: its row has its vertex's number there, which is no element's.
fn onward(elements: &[u16], e: ElementId, marks: &mut Marks)
    requires { Used elements.now e.0 }
    ensures { Onward elements.now e.0 marks.old.words marks.new.words }
{
    if !marks.has(e) {
        return;
    }
    if rank_of(elements, e) == 0 {
        return;
    }
    mark_boundary(elements, e, marks);
}

// The root and all below it, from one mark down to the next as document 01 asks: what is marked on the way lies below.
pub fn below(elements: &[u16], root: ElementId) -> Marks
    requires { Used elements.now root.0 }
    ensures { Below elements.now root.0 result.words }
{
    let mut marks = Marks::none();
    marks.mark(root);
    let mut left = root.0 + 1;
    while 0 < left {
        let e = marks.down_to(ElementId(left - 1));
        onward(elements, e, &mut marks);
        left = e.0;
    }
    marks
}

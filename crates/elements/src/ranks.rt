// The marks of one rank.
ghost use Rattle.std.specs.Prelude.{◌≡◌, length};
ghost use Rattle.space.specs.Ready.{ElementReady};
ghost use Rattle.elements.specs.Ranks.{one_more, OfRank, Greatest};

use crate::marks::Marks;
use rules::ElementId;
use space::rows::rank_of;
use space::words::ELEMENTS;

fn add_ranked(elements: &[u16], set: &Marks, rank: usize, e: ElementId, out: &mut Marks)
    requires { ElementReady elements.now e.0 }
    ensures { out.new.words ≡ one_more elements.now set.now.words rank e.0 out.old.words }
{
    if !set.has(e) {
        return;
    }
    if rank_of(elements, e) != rank {
        return;
    }
    out.mark(e);
}

// From one mark down to the next, by the zeros above it as document 01 asks.
fn with_rank(elements: &[u16], s: &Marks, rank: usize) -> Marks
    requires { length elements.now ≡ 18432 }
    ensures { OfRank elements.now s.now.words rank result.words }
{
    let mut some = Marks::none();
    let mut left = ELEMENTS;
    while 0 < left {
        let e = s.down_to(ElementId(left - 1));
        add_ranked(elements, s, rank, e, &mut some);
        left = e.0;
    }
    some
}

// Down rank by rank until some are marked; rank 0 is never looked at.
pub fn greatest(elements: &[u16], s: &Marks, rank: usize) -> Marks
    requires { length elements.now ≡ 18432 }
    ensures { Greatest elements.now s.now.words rank result.words }
{
    for i in 0..rank {
        let some = with_rank(elements, s, rank - i);
        if 0 < some.size() {
            return some;
        }
    }
    Marks::none()
}

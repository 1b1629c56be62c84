// What is below every one of some roots.
ghost use Rattle.std.specs.Prelude.{◌*◌, ◌≡◌, eqb, get_or};
ghost use Rattle.rules.specs.Lists.{all};
ghost use Rattle.elements.specs.Ranks.{AllUsed, SomeUsed, Common};

use crate::below::below;
use crate::marks::Marks;
use rules::ElementId;
use space::rows::rank_of;
use space::words::wide;

pub fn all_of_rank(elements: &[u16], roots: &[u16], rank: usize) -> bool
    requires { AllUsed elements.now roots.now }
    ensures { result ≡ all (λ e. eqb (get_or elements.now (e * 36) 0) rank) roots.now }
{
    roots
        .iter()
        .all(|&root| rank_of(elements, ElementId(wide(root))) == rank)
}

pub fn common(elements: &[u16], roots: &[u16]) -> Marks
    requires { SomeUsed elements.now roots.now }
    ensures { Common elements.now roots.now result.words }
{
    let mut s = below(elements, ElementId(wide(roots[0])));
    for &root in &roots[1..] {
        let next = below(elements, ElementId(wide(root)));
        s = s.both(&next);
    }
    s
}

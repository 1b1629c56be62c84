// Whether an element of full rank has a primordial facet.
ghost use Rattle.std.specs.Prelude.{◌≡◌};
ghost use Rattle.rules.specs.Limits.{desk};
ghost use Rattle.rules.specs.Lists.{any};
ghost use Rattle.rules.specs.Replies.{primordial_facet_reply};
ghost use Rattle.space.specs.Lent.{lent};
ghost use Rattle.walk.specs.Boundaries.{row_boundary, BoundaryFits};
ghost use Rattle.walk.specs.Facets.{row_primordial};

use crate::boundary;
use rules::{ElementId, Refusal, Reply};
use soundness::asked::root_asked;
use space::memory::Memory;
use space::rows;
use space::words::wide;

// Whether some element of the boundary has the mark.
fn any_primordial(elements: &[u16], e: ElementId) -> bool
    requires { BoundaryFits elements.now e.0 }
    ensures { result ≡ any (row_primordial elements.now) (row_boundary elements.now e.0) }
{
    boundary(elements, e)
        .iter()
        .any(|&b| rows::is_primordial(elements, ElementId(wide(b))))
}

// 3, 4, and 6 unless the rank is the dimension.
pub fn has_primordial_facet(memory: Memory, root: ElementId) -> Reply<bool>
    ensures { result ≡ primordial_facet_reply desk (lent memory.entry) root.0 }
{
    root_asked(memory, root)?;
    if rows::rank_of(memory.elements, root) != wide(memory.counts[0]) {
        return Err(Refusal::Rank);
    }
    Ok(any_primordial(memory.elements, root))
}

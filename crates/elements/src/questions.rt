// Document 01, "Questions": 3, then 4, then a question's own refusals, and 12 last; refused, the list room is as it came.
ghost use Rattle.std.specs.Prelude.{◌≡◌};
ghost use Rattle.rules.specs.Limits.{desk};
ghost use Rattle.rules.specs.Replies.{sub_elements_reply, with_rank_reply, vertex_set_reply, greatest_common_reply};
ghost use Rattle.space.specs.Lent.{lent};

use crate::below::below;
use crate::common::{all_of_rank, common};
use crate::levels::level;
use crate::listing::{list_marks, list_vertices};
use crate::ranks::greatest;
use rules::{ElementId, Refusal, Reply};
use soundness::asked::{root_asked, roots_asked};
use space::memory::Memory;
use space::rows::rank_of;
use space::words::wide;

// The root and all below it.
pub fn subelements_of(memory: Memory, root: ElementId, list: &mut [u16]) -> Reply<usize>
    ensures { (result, list.new) ≡ sub_elements_reply desk (lent memory.entry) root.0 list.old }
{
    root_asked(memory, root)?;
    let s = below(memory.elements, root);
    list_marks(&s, list)
}

// Those of a rank, if any.
pub fn subelements_with_rank(
    memory: Memory,
    root: ElementId,
    rank: u8,
    list: &mut [u16],
) -> Reply<usize>
    ensures { (result, list.new) ≡ with_rank_reply desk (lent memory.entry) rank root.0 list.old }
{
    root_asked(memory, root)?;
    let some = level(memory.elements, root, rank as usize);
    list_marks(&some, list)
}

// The numbers of the vertices, which are no element numbers.
pub fn vertex_set(memory: Memory, root: ElementId, list: &mut [u16]) -> Reply<usize>
    ensures { (result, list.new) ≡ vertex_set_reply desk (lent memory.entry) root.0 list.old }
{
    root_asked(memory, root)?;
    let corners = level(memory.elements, root, 0);
    list_vertices(memory.elements, &corners, list)
}

// Those of the highest rank above 0 that all roots have; the roots are one or more, of one rank.
pub fn greatest_common_subelements(memory: Memory, roots: &[u16], list: &mut [u16]) -> Reply<usize>
    ensures { (result, list.new) ≡ greatest_common_reply desk (lent memory.entry) roots.now list.old }
{
    roots_asked(memory, roots)?;
    if roots.is_empty() {
        return Err(Refusal::Rank);
    }
    let rank = rank_of(memory.elements, ElementId(wide(roots[0])));
    if !all_of_rank(memory.elements, roots, rank) {
        return Err(Refusal::Rank);
    }
    let s = common(memory.elements, roots);
    let some = greatest(memory.elements, &s, rank);
    list_marks(&some, list)
}

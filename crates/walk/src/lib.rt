// The edges of a face in order: from its lowest vertex, first to the lower neighbour, by edges, round to the start.
#![tactic(auto)]

pub mod facet;

ghost use Rattle.std.specs.Prelude.{◌+◌, ◌*◌, ◌≡◌, not, ◌&&◌, eqb, get_or};
ghost use Rattle.std.proofs.lemmas.List.Edits.{sets};
ghost use Rattle.rules.specs.Limits.{desk};
ghost use Rattle.rules.specs.Questions.{answer};
ghost use Rattle.rules.specs.Replies.{listed, edges_in_order_reply};
ghost use Rattle.space.specs.Lent.{lent};
ghost use Rattle.space.specs.Ready.{ElementReady};
ghost use Rattle.walk.specs.Boundaries.{row_boundary, BoundaryFits};
ghost use Rattle.walk.specs.Walks.{has_end, end_across, edge_beside, lowest_end, no_edge, first_way, numbers_round, words_in_order, EndReady, VertexOf, FaceFits, ListFits, WalkFits};

use rules::{ElementId, Refusal, Reply, VertexId};
use soundness::asked::root_asked;
use space::memory::Memory;
use space::rows;
use space::words::{WIDTH, wide};

// How many words stand before a boundary: rank, mark, hyperplane, count.
const HEAD: usize = 4;

// No element has this number. A number and no Option: the walk that every answer cites is defined with it.
const NO_EDGE: usize = 65535;

// The numbers of an element's boundary.
fn boundary(elements: &[u16], e: ElementId) -> &[u16]
    requires { BoundaryFits elements.now e.0 }
    ensures { result.now ≡ row_boundary elements.now e.0 }
{
    let at = e.0 * WIDTH + HEAD;
    &elements[at..at + rows::size_of(elements, e)]
}

// One of an edge's two ends, which are vertex elements.
fn end_at(elements: &[u16], e: ElementId, i: usize) -> ElementId
    requires { EndReady elements.now e.0 i }
    ensures { result.0 ≡ get_or elements.now (e.0 * 36 + (4 + i)) 0 }
{
    ElementId(wide(rows::boundary_at(elements, e, i)))
}

// The vertex that a vertex element names.
fn vertex_of(elements: &[u16], v: ElementId) -> VertexId
    requires { ElementReady elements.now v.0 }
    ensures { VertexOf elements.now v.0 result.0 }
{
    VertexId(wide(rows::boundary_at(elements, v, 0)))
}

fn has_end(elements: &[u16], v: ElementId, e: ElementId) -> bool
    requires { ElementReady elements.now e.0 }
    ensures { result ≡ has_end elements.now v.0 e.0 }
{
    v == end_at(elements, e, 0) || v == end_at(elements, e, 1)
}

fn end_across(elements: &[u16], v: ElementId, e: ElementId) -> ElementId
    requires { ElementReady elements.now e.0 }
    ensures { result.0 ≡ end_across elements.now v.0 e.0 }
{
    let a = end_at(elements, e, 0);
    if a == v {
        return end_at(elements, e, 1);
    }
    a
}

// Whether x is an edge at the corner v other than e.
fn is_beside(elements: &[u16], e: ElementId, v: ElementId, x: ElementId) -> bool
    requires { ElementReady elements.now x.0 }
    ensures { result ≡ (not (eqb x.0 e.0) && has_end elements.now v.0 x.0) }
{
    x != e && has_end(elements, v, x)
}

// By number and not by the corner it leads to: two edges may share both ends. Of a sound face there is one; the definition has 0 where there is none.
fn edge_beside(elements: &[u16], f: ElementId, e: ElementId, v: ElementId) -> ElementId
    requires { BoundaryFits elements.now f.0 }
    ensures { result.0 ≡ edge_beside elements.now e.0 v.0 (row_boundary elements.now f.0) }
{
    for &number in boundary(elements, f) {
        let x = ElementId(wide(number));
        if is_beside(elements, e, v, x) {
            return x;
        }
    }
    ElementId(0)
}

// An edge's first end is its lower one.
fn lowest_end(elements: &[u16], f: ElementId) -> ElementId
    requires { BoundaryFits elements.now f.0 }
    ensures { result.0 ≡ lowest_end elements.now no_edge (row_boundary elements.now f.0) }
{
    let mut m = ElementId(NO_EDGE);
    for &number in boundary(elements, f) {
        let x = ElementId(wide(number));
        m = m.min(end_at(elements, x, 0));
    }
    m
}

fn first_way(elements: &[u16], f: ElementId, v: ElementId) -> ElementId
    requires { FaceFits elements.now f.0 }
    ensures { result.0 ≡ first_way elements.now v.0 (row_boundary elements.now f.0) }
{
    let a = edge_beside(elements, f, ElementId(NO_EDGE), v);
    let b = edge_beside(elements, f, a, v);
    let p = end_across(elements, v, a);
    let q = end_across(elements, v, b);
    if q < p {
        return b;
    }
    a
}

// Two vertex numbers for each edge. A face of a sound table is one ring, so as many steps as it has edges lead round to the start: no 7.
fn walk_round(elements: &[u16], f: ElementId, start: ElementId, first: ElementId, list: &mut [u16])
    requires { WalkFits elements.now f.0 start.0 first.0 list.old }
    ensures { list.new ≡ sets list.old 0 (numbers_round elements.now f.0 start.0 first.0) }
{
    let n = rows::size_of(elements, f);
    let mut v = start;
    let mut e = first;
    // The step is counted, since its two places in the list are twice its number.
    for k in 0..n {
        let w = end_across(elements, v, e);
        let from = vertex_of(elements, v);
        let to = vertex_of(elements, w);
        list[2 * k] = from.0 as u16;
        list[2 * k + 1] = to.0 as u16;
        e = edge_beside(elements, f, e, w);
        v = w;
    }
}

// From the lowest vertex, first to the lower neighbour, into a list that has room for it.
pub fn walk_face(elements: &[u16], f: ElementId, list: &mut [u16])
    requires { ListFits elements.now f.0 list.old }
    ensures { list.new ≡ sets list.old 0 (words_in_order elements.now (row_boundary elements.now f.0)) }
{
    let start = lowest_end(elements, f);
    let first = first_way(elements, f, start);
    walk_round(elements, f, start, first, list);
}

// 12, and only then is the list written.
pub fn face_in_order(elements: &[u16], f: ElementId, list: &mut [u16]) -> Reply<usize>
    requires { FaceFits elements.now f.0 }
    ensures { (result, list.new) ≡ listed (answer (words_in_order elements.now (row_boundary elements.now f.0))) list.old }
{
    let n = rows::size_of(elements, f);
    if list.len() < 2 * n {
        return Err(Refusal::RoomShort);
    }
    walk_face(elements, f, list);
    Ok(2 * n)
}

// 3, 4, 6, and 12 last.
pub fn edges_in_order(memory: Memory, root: ElementId, list: &mut [u16]) -> Reply<usize>
    ensures { (result, list.new) ≡ edges_in_order_reply desk (lent memory.entry) root.0 list.old }
{
    root_asked(memory, root)?;
    if rows::rank_of(memory.elements, root) != 2 {
        return Err(Refusal::Rank);
    }
    face_in_order(memory.elements, root, list)
}

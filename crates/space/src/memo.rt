// What is found again, and what is new: a vertex with its element, a hyperplane, and a polytope.
ghost use Rattle.std.specs.Prelude.{◌+◌, ◌<◌, ◌≤◌, ◌≡◌, length};
ghost use Rattle.std.proofs.lemmas.List.Edits.{sets};
ghost use Rattle.rules.specs.Limits.{desk};
ghost use Rattle.rules.specs.Memory.{plane_width};
ghost use Rattle.rules.specs.Table.{corner};
ghost use Rattle.rules.specs.Table as table;
ghost use Rattle.rules.specs.Held.{element_words};
ghost use Rattle.space.specs.Ready.{PointReady, ShareReady, VertexReady, ShareHyperplaneReady, HyperplaneReady, PolytopeReady};
ghost use Rattle.space.specs.Shared.{stored_point, four, SharedIndexed, VertexIndexed, row_of, five, HyperplaneShared, HyperplaneAdded, PolytopeIndexed};

use crate::adding::add_row;
use crate::closed::is_closed;
use crate::rows::polytope_row;
use crate::words::{AXES, BOUNDARY, HYPERPLANES, NO_PLANE, PLANE_WIDTH, VERTICES, WIDTH, wide};
use rules::{ElementId, Hyperplane, HyperplaneId, Refusal, Reply, VertexId};

pub fn read_point(points: &[f64], v: VertexId) -> [f64; AXES]
    requires { PointReady points.now v.0 }
    ensures { result ≡ stored_point points.now v.0 }
{
    let at = v.0 * AXES;
    [points[at], points[at + 1], points[at + 2], points[at + 3]]
}

// Rank 0, no mark, no hyperplane, and the vertex's number as the one entry of the boundary.
pub fn corner_row(v: VertexId) -> [u16; WIDTH]
    requires { v.0 < desk.vertices }
    ensures { result ≡ element_words desk (corner v.0) }
{
    let mut row = [0u16; WIDTH];
    row[2] = NO_PLANE;
    row[3] = 1;
    row[4] = v.0 as u16;
    row
}

pub fn put_point(points: &mut [f64], at: usize, p: [f64; AXES])
    requires { at + desk.dimensions ≤ length points.old }
    ensures { points.new ≡ sets points.old at (four p) }
{
    points[at..at + AXES].copy_from_slice(&p);
}

// The element of a vertex that was found, or a new vertex (8) and its element (9).
fn share_vertex(
    counts: &mut [u16],
    points: &mut [f64],
    elements: &mut [u16],
    index: &mut [u16],
    p: [f64; AXES],
    m: Option<VertexId>,
) -> Reply<ElementId>
    requires { ShareReady counts.old points.old elements.old index.old m }
    ensures { SharedIndexed counts.old points.old elements.old p m result counts.new points.new elements.new index.new }
{
    match m {
        Some(v) => {
            let row = corner_row(v);
            add_row(counts, elements, index, &row)
        }
        None => {
            let n = wide(counts[2]);
            if VERTICES <= n {
                return Err(Refusal::VerticesFull);
            }
            put_point(points, n * AXES, p);
            counts[2] = (n + 1) as u16;
            let row = corner_row(VertexId(n));
            add_row(counts, elements, index, &row)
        }
    }
}

// The element of the lowest vertex that matches, or of a new one.
pub fn add_vertex(
    counts: &mut [u16],
    points: &mut [f64],
    elements: &mut [u16],
    index: &mut [u16],
    p: [f64; AXES],
) -> Reply<ElementId>
    requires { VertexReady counts.old points.old elements.old index.old }
    ensures { VertexIndexed counts.old points.old elements.old p result counts.new points.new elements.new index.new }
{
    let d = wide(counts[0]);
    let n = wide(counts[2]);
    let m = hypermath::find_vertex(d, points, n, p);
    share_vertex(counts, points, elements, index, p, m)
}

// How many hyperplanes are the cube's own.
fn primordials(d: usize) -> usize
    requires { d ≤ desk.dimensions }
    ensures { result ≡ table.primordials d }
{
    if d < 2 {
        return 0;
    }
    2 * d
}

pub fn hyperplane_row(h: Hyperplane) -> [f64; PLANE_WIDTH]
    ensures { result ≡ row_of h }
{
    [
        h.normal[0],
        h.normal[1],
        h.normal[2],
        h.normal[3],
        h.distance,
    ]
}

pub fn put_hyperplane(planes: &mut [f64], at: usize, p: [f64; PLANE_WIDTH])
    requires { at + plane_width desk ≤ length planes.old }
    ensures { planes.new ≡ sets planes.old at (five p) }
{
    planes[at..at + PLANE_WIDTH].copy_from_slice(&p);
}

// The hyperplane that was found, or a new one (10).
fn share_hyperplane(
    counts: &mut [u16],
    planes: &mut [f64],
    row: [f64; PLANE_WIDTH],
    m: Option<HyperplaneId>,
) -> Reply<HyperplaneId>
    requires { ShareHyperplaneReady counts.old planes.old }
    ensures { HyperplaneShared counts.old planes.old row m result counts.new planes.new }
{
    if let Some(k) = m {
        return Ok(k);
    }
    let n = wide(counts[3]);
    if HYPERPLANES <= n {
        return Err(Refusal::HyperplanesFull);
    }
    put_hyperplane(planes, n * PLANE_WIDTH, row);
    counts[3] = (n + 1) as u16;
    Ok(HyperplaneId(n))
}

// The lowest hyperplane that matches, or a new one; the cube's own are never matched.
pub fn add_hyperplane(counts: &mut [u16], planes: &mut [f64], h: Hyperplane) -> Reply<HyperplaneId>
    requires { HyperplaneReady counts.old planes.old }
    ensures { HyperplaneAdded counts.old planes.old h result counts.new planes.new }
{
    let d = wide(counts[0]);
    let first = HyperplaneId(primordials(d));
    let n = wide(counts[3]);
    let m = hypermath::find_hyperplane(d, planes, first, n, h);
    let row = hyperplane_row(h);
    share_hyperplane(counts, planes, row, m)
}

// Rule 8: none where the count is not above the rank; 11, 7, an equal entry, 9.
pub fn add_polytope(
    counts: &mut [u16],
    elements: &mut [u16],
    index: &mut [u16],
    rank: usize,
    list: &[u16],
    plane: u16,
    mark: bool,
) -> Reply<Option<ElementId>>
    requires { PolytopeReady counts.old elements.old index.old rank list.now }
    ensures { PolytopeIndexed counts.old elements.old rank list.now plane mark result counts.new elements.new index.new }
{
    let n = list.len();
    if n <= rank {
        return Ok(None);
    }
    if BOUNDARY < n {
        return Err(Refusal::BoundaryFull);
    }
    if !is_closed(counts, elements, rank, list) {
        return Err(Refusal::NotClosed);
    }
    let row = polytope_row(rank, list, plane, mark);
    let e = add_row(counts, elements, index, &row)?;
    Ok(Some(e))
}

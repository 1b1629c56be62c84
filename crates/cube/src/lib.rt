// The primordial cube, entry by entry.
#![tactic(auto)]

ghost use Rattle.std.specs.Prelude.{◌+◌, ◌^◌, ◌<◌, ◌≤◌, ◌≡◌, [], ◌∷◌, map, length};
ghost use Rattle.rules.specs.Limits.{desk};
ghost use Rattle.rules.specs.Lists.{pad};
ghost use Rattle.rules.specs.Floats.{plus_zero};
ghost use Rattle.rules.specs.Cube.{digits, faces, of_digits, is_vertex, is_facet, cube_element, cube_point, facet_normal, radius_fits};
ghost use Rattle.rules.specs.Held.{element_words, memory_of};
ghost use Rattle.cube.specs.Cubes.{CubeSize, InCube, AcrossReady, FacesMore, FacesSoFar, CubeRank, coordinate_at, component_at};
ghost use Rattle.cube.specs.Writing.{cube_elements, RowReady, CornerReady, PointsReady, FacetReady, PlanesReady, ElementsReady};
ghost use Rattle.cube.specs.Writing.{PointsRoom, PlanesRoom, ElementsRoom, RoomReady};
ghost use Rattle.cube.specs.Writing.{CornerPut, PointsPut, FacetPut, PlanesPut, CubePut};
ghost use Rattle.rules.specs.Replies.{cube_reply};

use rules::{ElementId, Hyperplane, HyperplaneId, Refusal, Reply, VertexId};
use space::memory::Memory;
use space::words::{AXES, NO_PLANE, PLANE_WIDTH, SET, WIDTH, right_size};
use space::{memo, rows};

// Some numbers of a boundary, in the front of their room: there is no heap, and how many there are is known only at run time.
#[derive(Clone, Copy)]
struct Faces {
    list: [u16; SET],
    n: usize,
}

// How many elements a cube has.
fn cube_size(d: usize) -> u16
    requires { d ≤ 4 }
    ensures { CubeSize d result }
{
    let mut size = 1u16;
    for axis in 0..d {
        size *= 3;
    }
    size
}

// The digits of an element of the cube, axis 0 the lowest, and 0 past the dimension.
fn digits_of(d: usize, e: u16) -> [u16; 4]
    requires { d ≤ 4 }
    ensures { result ≡ pad 0 4 (digits d e) }
{
    let mut ks = [0u16; 4];
    let mut rest = e;
    for axis in 0..d {
        ks[axis] = rest % 3;
        rest /= 3;
    }
    ks
}

// The two faces across an axis that the element spans.
fn faces_across(f: Faces, k: u16, e: u16, step: u16) -> Faces
    requires { AcrossReady f k e step }
    ensures { FacesMore f k e step result }
{
    if k != 2 {
        return f;
    }
    let n = f.n;
    let mut list = f.list;
    let low = e - 2 * step;
    let high = e - step;
    list[n] = low;
    list[n + 1] = high;
    Faces { list, n: n + 2 }
}

// The boundary of an element of the cube, in rising number.
fn faces_of(d: usize, e: u16) -> Faces
    requires { InCube d e }
    ensures { FacesSoFar result (map of_digits (faces (digits d e))) }
{
    let ks = digits_of(d, e);
    let mut f = Faces {
        list: [0u16; SET],
        n: 0,
    };
    let mut step = cube_size(d);
    for axis in (0..d).rev() {
        step /= 3;
        f = faces_across(f, ks[axis], e, step);
    }
    f
}

// Rank is the count of 2s, and each gives two faces.
fn cube_rank(d: usize, e: u16) -> usize
    requires { InCube d e }
    ensures { CubeRank d e result }
{
    let f = faces_of(d, e);
    f.n / 2
}

fn is_corner(d: usize, e: u16) -> bool
    requires { InCube d e }
    ensures { result ≡ is_vertex (digits d e) }
{
    cube_rank(d, e) == 0
}

// Rank dimension - 1, above 0.
fn is_facet(d: usize, e: u16) -> bool
    requires { InCube d e }
    ensures { result ≡ is_facet (digits d e) }
{
    let rank = cube_rank(d, e);
    rank != 0 && rank + 1 == d
}

// The row of an element; its vertex, or its hyperplane, has as number how many come before.
fn cube_row(d: usize, e: ElementId, v: VertexId, h: HyperplaneId) -> [u16; 36]
    requires { RowReady d e.0 v.0 h.0 }
    ensures { result ≡ element_words desk (cube_element d e.0) }
{
    let number = e.0 as u16;
    if is_corner(d, number) {
        return memo::corner_row(v);
    }
    let f = faces_of(d, number);
    let list = &f.list[..f.n];
    let rank = f.n / 2;
    if is_facet(d, number) {
        return rows::polytope_row(rank, list, h.0 as u16, true);
    }
    rows::polytope_row(rank, list, NO_PLANE, false)
}

// A corner's coordinate: the digit tells which end.
fn coordinate_at(k: u16, radius: f64) -> f64
    ensures { result ≡ coordinate_at radius k }
{
    if k == 0 {
        return -radius;
    }
    radius
}

fn corner_point(d: usize, radius: f64, e: u16) -> [f64; 4]
    requires { d ≤ 4 }
    ensures { result ≡ pad plus_zero 4 (cube_point radius (digits d e)) }
{
    let ks = digits_of(d, e);
    let mut p = [0.0; 4];
    for axis in 0..d {
        p[axis] = coordinate_at(ks[axis], radius);
    }
    p
}

// A component of a facet's outward normal: its own axis is the one that it does not span.
fn component_at(k: u16) -> f64
    ensures { result ≡ component_at k }
{
    if k == 2 {
        return 0.0;
    }
    if k == 0 {
        return -1.0;
    }
    1.0
}

fn facet_normal(d: usize, e: u16) -> [f64; 4]
    requires { d ≤ 4 }
    ensures { result ≡ pad plus_zero 4 (facet_normal (digits d e)) }
{
    let ks = digits_of(d, e);
    let mut normal = [0.0; 4];
    for axis in 0..d {
        normal[axis] = component_at(ks[axis]);
    }
    normal
}

// A corner's point goes behind those before it; the number that the next will have.
fn put_corner(points: &mut [f64], d: usize, radius: f64, e: ElementId, v: VertexId) -> VertexId
    requires { CornerReady d e.0 points.old v.0 }
    ensures { CornerPut d radius e.0 points.old result.0 points.new }
{
    let number = e.0 as u16;
    if !is_corner(d, number) {
        return v;
    }
    let p = corner_point(d, radius, number);
    memo::put_point(points, v.0 * AXES, p);
    VertexId(v.0 + 1)
}

// One by one, as the facets below: what is put differs, and what is counted.
fn put_corners(points: &mut [f64], d: usize, radius: f64) -> usize
    requires { PointsReady d radius points.old }
    ensures { PointsPut d radius result points.new }
{
    let size = cube_size(d);
    let mut v = VertexId(0);
    for e in 0..size {
        v = put_corner(points, d, radius, ElementId(e as usize), v);
    }
    v.0
}

// A facet's hyperplane goes behind those before it; the number that the next will have.
fn put_facet(
    planes: &mut [f64],
    d: usize,
    radius: f64,
    e: ElementId,
    h: HyperplaneId,
) -> HyperplaneId
    requires { FacetReady d e.0 planes.old h.0 }
    ensures { FacetPut d radius e.0 planes.old result.0 planes.new }
{
    let number = e.0 as u16;
    if !is_facet(d, number) {
        return h;
    }
    let normal = facet_normal(d, number);
    let row = memo::hyperplane_row(Hyperplane {
        normal,
        distance: radius,
    });
    memo::put_hyperplane(planes, h.0 * PLANE_WIDTH, row);
    HyperplaneId(h.0 + 1)
}

fn put_facets(planes: &mut [f64], d: usize, radius: f64) -> usize
    requires { PlanesReady d radius planes.old }
    ensures { PlanesPut d radius result planes.new }
{
    let size = cube_size(d);
    let mut h = HyperplaneId(0);
    for e in 0..size {
        h = put_facet(planes, d, radius, ElementId(e as usize), h);
    }
    h.0
}

// How many vertices and hyperplanes there are so far are the numbers of the next.
fn put_elements(elements: &mut [u16], d: usize)
    requires { ElementsReady d elements.old }
    ensures { elements.new ≡ cube_elements d (3 ^ d) }
{
    let size = cube_size(d);
    let mut v = 0usize;
    let mut h = 0usize;
    for e in 0..size {
        let row = cube_row(d, ElementId(e as usize), VertexId(v), HyperplaneId(h));
        rows::put_row(elements, e as usize * WIDTH, &row);
        v += usize::from(is_corner(d, e));
        h += usize::from(is_facet(d, e));
    }
}

fn put_counts(counts: &mut [u16], d: u16, e: u16, v: u16, h: u16)
    requires { length counts.old ≡ 4 }
    ensures { counts.new ≡ d ∷ e ∷ v ∷ h ∷ [] }
{
    counts.copy_from_slice(&[d, e, v, h]);
}

fn put_points(points: &mut [f64], d: usize, radius: f64) -> u16
    requires { PointsRoom d points.old }
    ensures { PointsPut d radius result points.new }
{
    points.fill(0.0);
    put_corners(points, d, radius) as u16
}

fn put_planes(planes: &mut [f64], d: usize, radius: f64) -> u16
    requires { PlanesRoom d planes.old }
    ensures { PlanesPut d radius result planes.new }
{
    planes.fill(0.0);
    put_facets(planes, d, radius) as u16
}

fn put_rows(elements: &mut [u16], d: usize)
    requires { ElementsRoom d elements.old }
    ensures { elements.new ≡ cube_elements d (3 ^ d) }
{
    elements.fill(0);
    put_elements(elements, d);
}

// Everything is cleared and written anew.
fn put_cube(
    counts: &mut [u16],
    points: &mut [f64],
    planes: &mut [f64],
    elements: &mut [u16],
    d: usize,
    radius: f64,
)
    requires { RoomReady d counts.old points.old planes.old elements.old }
    ensures { CubePut d radius counts.new points.new planes.new elements.new }
{
    let v = put_points(points, d, radius);
    let h = put_planes(planes, d, radius);
    put_rows(elements, d);
    let e = cube_size(d);
    put_counts(counts, d as u16, e, v, h);
}

fn radius_fits(radius: f64) -> bool
    ensures { result ≡ radius_fits radius }
{
    1.0 <= radius && radius <= 65536.0
}

// A cube of 1 to 4 dimensions and radius 1 to 65,536, in place of all that the memory had; or 1, 2 or 3, and nothing is written.
pub fn with_primordial_cube_radius(
    dimension: u64,
    radius: f64,
    counts: &mut [u16],
    points: &mut [f64],
    planes: &mut [f64],
    elements: &mut [u16],
) -> Reply<()>
    ensures { (result, memory_of counts.new points.new planes.new elements.new)
        ≡ cube_reply desk dimension radius (memory_of counts.old points.old planes.old elements.old) }
{
    if dimension < 1 || 4 < dimension {
        return Err(Refusal::Dimension);
    }
    if !radius_fits(radius) {
        return Err(Refusal::Radius);
    }
    let memory = Memory {
        counts,
        points,
        planes,
        elements,
    };
    if !right_size(memory) {
        return Err(Refusal::NotSound);
    }
    put_cube(counts, points, planes, elements, dimension as usize, radius);
    Ok(())
}

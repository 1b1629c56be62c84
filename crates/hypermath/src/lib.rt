// All that the rules do with floats: distances and sides, crossings, matches, and the two searches over the lent rows.
#![tactic(auto)]

mod between;
pub mod narrow;
pub mod patterns;
mod sides;

ghost use Rattle.std.specs.Prelude.{◌+◌, ◌*◌, ◌≤◌, ◌≡◌, [], length, get_or, take, drop};
ghost use Rattle.rules.specs.Lists.{all, find, find_from, pad};
ghost use Rattle.rules.specs.Floats as floats;
ghost use Rattle.rules.specs.Cut.{plane_matches};
ghost use Rattle.rules.specs.Replies.{divider_of};
ghost use Rattle.hypermath.specs.Axes.{axes, AxesOf};
ghost use Rattle.hypermath.specs.Answers.{distance_to, unit_normal, distance_kind, vertex_number, hyperplane_number, points_in, planes_in, row_hyperplane, SidesOf, Clamped};

use between::{above_both, below_both, greater, lesser};
use rules::{EdgeTest, Hyperplane, HyperplaneId, Side, SideTest, VertexId};
use sides::opposed;

// How many floats a point has.
const AXES: usize = 4;

// T, exactly 2^-20.
const TOLERANCE: f64 = 0.00000095367431640625;

// 16 T: how near to the plane is a close call.
const CLOSE_BOUND: f64 = 0.0000152587890625;

// 1 - T and 1 + T.
const UNIT_LOW: f64 = 0.99999904632568359375;

const UNIT_HIGH: f64 = 1.00000095367431640625;

// How far a hyperplane may lie.
const FARTHEST_PLANE: f64 = 262144.0;

// What a distance is good for: a hyperplane, rule 1, or nothing.
#[derive(Clone, Copy)]
pub enum DistanceKind {
    Unfit,
    Finite,
    PlusInfinity,
    MinusInfinity,
}

// How many axes a dimension uses, of those that there are.
fn axes_of(d: usize) -> usize
    ensures { AxesOf d result }
{
    d.min(AXES)
}

// Whether x lies from -bound to bound.
pub fn is_within(bound: f64, x: f64) -> bool
    ensures { result ≡ floats.within bound x }
{
    -bound <= x && x <= bound
}

// The products, each rounded, added in axis order: a loop, for the order of the sum is the rule.
pub fn dot(d: usize, a: [f64; 4], b: [f64; 4]) -> f64
    ensures { result ≡ floats.dot (take d a) (take d b) }
{
    let n = axes_of(d);
    let mut s = 0.0;
    for axis in 0..n {
        s = s + a[axis] * b[axis];
    }
    s
}

// How far a point lies outside a hyperplane.
pub fn signed_distance(d: usize, h: Hyperplane, p: [f64; 4]) -> f64
    ensures { result ≡ distance_to d h p }
{
    let normal = h.normal;
    dot(d, normal, p) - h.distance
}

// Which side a signed distance is on, and whether it was a close call.
pub fn side_of(s: f64) -> SideTest
    ensures { result ≡ floats.side_test s }
{
    if is_within(TOLERANCE, s) {
        return SideTest {
            side: Side::On,
            warning: false,
        };
    }
    let warning = is_within(CLOSE_BOUND, s);
    if s < -TOLERANCE {
        return SideTest {
            side: Side::Inside,
            warning,
        };
    }
    SideTest {
        side: Side::Outside,
        warning,
    }
}

// Every component of the dimension lies from -1 to 1.
fn components_fit(d: usize, normal: [f64; 4]) -> bool
    ensures { result ≡ all (floats.within floats.one) (take d normal) }
{
    let n = axes_of(d);
    normal[..n].iter().all(|&x| is_within(1.0, x))
}

// Every component past the dimension is zero bits.
fn zero_past(d: usize, normal: [f64; 4]) -> bool
    ensures { result ≡ all (floats.same_bits floats.plus_zero) (drop d normal) }
{
    let n = axes_of(d);
    normal[n..].iter().all(|&x| is_zero_bits(x))
}

// Whether a normal is unit over the dimension and zero past it.
pub fn is_unit(d: usize, normal: [f64; 4]) -> bool
    ensures { result ≡ unit_normal d normal }
{
    if !components_fit(d, normal) {
        return false;
    }
    let squares = dot(d, normal, normal);
    UNIT_LOW <= squares && squares <= UNIT_HIGH && zero_past(d, normal)
}

// What a distance is good for.
pub fn distance_kind(x: f64) -> DistanceKind
    ensures { result ≡ distance_kind x }
{
    if is_within(FARTHEST_PLANE, x) {
        return DistanceKind::Finite;
    }
    let infinity = 1.0 / 0.0;
    if x == infinity {
        return DistanceKind::PlusInfinity;
    }
    if x == -infinity {
        return DistanceKind::MinusInfinity;
    }
    DistanceKind::Unfit
}

// No crossing, or a crossing with its t, by the two ends' sides.
fn crossing_of(sa: f64, a: Side, sb: f64, b: Side) -> Option<f64>
    requires { SidesOf sa a sb b }
    ensures { result ≡ floats.crossing_of sa sb }
{
    if opposed(a, b) {
        return Some(sa / (sa - sb));
    }
    None
}

// The crossing of an edge, its lower-numbered end first, and whether an end was a close call.
pub fn edge_test(d: usize, h: Hyperplane, ends: [[f64; 4]; 2]) -> EdgeTest
    ensures { result ≡ floats.edge_test (distance_to d h (get_or ends 0 [])) (distance_to d h (get_or ends 1 [])) }
{
    let a = ends[0];
    let b = ends[1];
    let sa = signed_distance(d, h, a);
    let sb = signed_distance(d, h, b);
    let first = side_of(sa);
    let second = side_of(sb);
    let side_a = first.side;
    let side_b = second.side;
    let crossing = crossing_of(sa, side_a, sb, side_b);
    let warning = first.warning || second.warning;
    EdgeTest { crossing, warning }
}

// x, brought back between the ends a and b: f64::clamp would keep a NaN.
pub fn clamp(a: f64, b: f64, x: f64) -> f64
    ensures { Clamped a b x result }
{
    if above_both(a, b, x) {
        return greater(a, b);
    }
    if below_both(a, b, x) {
        return lesser(a, b);
    }
    if x != x {
        return lesser(a, b);
    }
    x
}

// a + (b - a) x t on each axis of the dimension, clamped between the two, and zero past the dimension: one index goes through three arrays.
fn point_between(d: usize, a: [f64; 4], b: [f64; 4], t: f64) -> [f64; 4]
    ensures { result ≡ pad floats.plus_zero axes (floats.crossing_point t (take d a) (take d b)) }
{
    let n = axes_of(d);
    let mut out = [0.0; 4];
    for axis in 0..n {
        let x = a[axis];
        let y = b[axis];
        out[axis] = clamp(x, y, x + (y - x) * t);
    }
    out
}

// Where an edge is crossed, its lower-numbered end first: never outside the box of its ends.
pub fn crossing_point(d: usize, ends: [[f64; 4]; 2], t: f64) -> [f64; 4]
    ensures { result ≡ pad floats.plus_zero axes (floats.crossing_point t (take d (get_or ends 0 [])) (take d (get_or ends 1 []))) }
{
    let a = ends[0];
    let b = ends[1];
    point_between(d, a, b, t)
}

// Whether two floats have equal bits; as data there is one NaN.
pub fn same_bits(a: f64, b: f64) -> bool
    ensures { result ≡ floats.same_bits a b }
{
    if a != a {
        return b != b;
    }
    if b != b {
        return false;
    }
    f64::to_bits(a) == f64::to_bits(b)
}

// Whether a float is zero bits.
pub fn is_zero_bits(x: f64) -> bool
    ensures { result ≡ floats.same_bits floats.plus_zero x }
{
    same_bits(0.0, x)
}

// Whether an earlier coordinate and a later one match.
pub fn coordinates_match(earlier: f64, later: f64) -> bool
    ensures { result ≡ floats.matches earlier later }
{
    let gap = earlier - later;
    if is_within(TOLERANCE, gap) {
        return true;
    }
    // numbers with equal bits have no gap, so the bits are asked only where the gap is no number
    if gap != gap {
        return same_bits(earlier, later);
    }
    false
}

// Whether two points match on every axis of the dimension.
pub fn points_match(d: usize, earlier: [f64; 4], later: [f64; 4]) -> bool
    ensures { result ≡ floats.point_matches (take d earlier) (take d later) }
{
    let n = axes_of(d);
    earlier[..n]
        .iter()
        .zip(later[..n].iter())
        .all(|(&a, &b)| coordinates_match(a, b))
}

// Whether two hyperplanes match, field by field.
pub fn hyperplanes_match(d: usize, earlier: Hyperplane, later: Hyperplane) -> bool
    ensures { result ≡ plane_matches (divider_of d earlier) (divider_of d later) }
{
    let a = earlier.normal;
    let b = later.normal;
    if !points_match(d, a, b) {
        return false;
    }
    coordinates_match(earlier.distance, later.distance)
}

// A row of the lent hyperplanes.
pub fn hyperplane_at(planes: &[f64], k: HyperplaneId) -> Hyperplane
    requires { k.0 * (1 + axes) + (1 + axes) ≤ length planes.now }
    ensures { result ≡ row_hyperplane planes.now k.0 }
{
    let at = k.0 * (1 + AXES);
    let mut normal = [0.0; 4];
    normal.copy_from_slice(&planes[at..at + AXES]);
    Hyperplane {
        normal,
        distance: planes[at + AXES],
    }
}

// The lowest of n vertices that matches a point; a vertex is left at its first unlike axis, by a label, as docs/RULES.md says.
fn search_vertices(d: usize, points: &[f64], n: usize, p: [f64; 4]) -> Option<VertexId>
    requires { n * axes ≤ length points.now }
    ensures { vertex_number result ≡ find (λ q. floats.point_matches q (take d p)) (points_in d n points.now) }
{
    let used = axes_of(d);
    let mut v = 0;
    let found = 'vertices: loop {
        if v == n {
            break None;
        }
        for axis in 0..used {
            if !coordinates_match(points[v * AXES + axis], p[axis]) {
                v += 1;
                continue 'vertices;
            }
        }
        break Some(VertexId(v));
    };
    found
}

// The same; with the dimension as a number a vertex's axes are compared with no loop.
pub fn find_vertex(d: usize, points: &[f64], n: usize, p: [f64; 4]) -> Option<VertexId>
    requires { n * axes ≤ length points.now }
    ensures { vertex_number result ≡ find (λ q. floats.point_matches q (take d p)) (points_in d n points.now) }
{
    if d == 2 {
        return search_vertices(2, points, n, p);
    }
    if d == 3 {
        return search_vertices(3, points, n, p);
    }
    search_vertices(d, points, n, p)
}

// The lowest hyperplane that matches, of n, from the first that is asked on.
pub fn find_hyperplane(
    d: usize,
    planes: &[f64],
    first: HyperplaneId,
    n: usize,
    h: Hyperplane,
) -> Option<HyperplaneId>
    requires { n * (1 + axes) ≤ length planes.now }
    ensures { hyperplane_number result ≡ find_from first.0 (λ g. plane_matches g (divider_of d h)) (drop first.0 (planes_in d n planes.now)) }
{
    for k in first.0..n {
        let g = hyperplane_at(planes, HyperplaneId(k));
        if hyperplanes_match(d, g, h) {
            return Some(HyperplaneId(k));
        }
    }
    None
}

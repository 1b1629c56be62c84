// The slices of points and hyperplanes of a sound memory.
ghost use Rattle.std.specs.Prelude.{◌*◌, ◌&&◌, ◌≡◌, eqb, length, take, drop};
ghost use Rattle.rules.specs.Limits.{desk};
ghost use Rattle.rules.specs.Lists.{all};
ghost use Rattle.rules.specs.Floats.{same_bits, plus_zero, within, farthest, farthest_plane};
ghost use Rattle.rules.specs.Memory.{plane_width};
ghost use Rattle.hypermath.specs.Answers.{unit_normal};
ghost use Rattle.soundness.specs.Tests.{PartOf, PointThere, PointsThere, PlaneThere, PlanesThere, FloatsReady};
ghost use Rattle.soundness.specs.Words.{blank_floats, point_words, points_sound, plane_words, planes_sound, floats_sound};

use hypermath::{hyperplane_at, is_unit, is_within};
use rules::{Hyperplane, HyperplaneId};
use space::words::{AXES, PLANE_FLOATS, PLANE_WIDTH, POINT_FLOATS};

// The farthest a coordinate and a hyperplane may lie.
const FARTHEST: f64 = 65536.0;

const FARTHEST_PLANE: f64 = 262144.0;

// The bits of a float, which are all zero for +0 only; a NaN's are not read, and are given as all ones.
fn bits_of(x: f64) -> u64
    ensures { eqb result 0 ≡ same_bits plus_zero x }
{
    if x != x {
        return 0xffff_ffff_ffff_ffff;
    }
    f64::to_bits(x)
}

// Unused room is zero bits: -0 is not blank. Many are read at once, as of the words.
fn blank_floats(list: &[f64], from: usize, to: usize) -> bool
    requires { PartOf from to (length list.now) }
    ensures { result ≡ blank_floats (drop from (take to list.now)) }
{
    let mut seen = 0u64;
    for &x in &list[from..to] {
        seen = seen | bits_of(x);
    }
    seen == 0
}

// Each coordinate is a number from -65,536 to 65,536.
pub fn coordinates_fit(list: &[f64], from: usize, to: usize) -> bool
    requires { PartOf from to (length list.now) }
    ensures { result ≡ all (within farthest) (drop from (take to list.now)) }
{
    list[from..to].iter().all(|&x| is_within(FARTHEST, x))
}

// A coordinate for each dimension, and zero bits past it.
fn point_sound(points: &[f64], at: usize, d: usize) -> bool
    requires { PointThere points.now at d }
    ensures { result ≡ point_words d (take desk.dimensions (drop at points.now)) }
{
    coordinates_fit(points, at, at + d) && blank_floats(points, at + d, at + AXES)
}

// The vertices in use, and zero bits past them.
fn points_sound(points: &[f64], d: usize, v: usize) -> bool
    requires { PointsThere points.now d v }
    ensures { result ≡ points_sound desk d v points.now }
{
    for i in 0..v {
        if !point_sound(points, i * AXES, d) {
            return false;
        }
    }
    blank_floats(points, v * AXES, POINT_FLOATS)
}

// A unit normal, zero bits past the dimension, and a distance from -262,144 to 262,144.
pub fn hyperplane_sound(h: Hyperplane, d: usize) -> bool
    ensures { result ≡ (unit_normal d h.normal && within farthest_plane h.distance) }
{
    let normal = h.normal;
    is_unit(d, normal) && is_within(FARTHEST_PLANE, h.distance)
}

// The same of a lent row.
fn plane_sound(planes: &[f64], k: HyperplaneId, d: usize) -> bool
    requires { PlaneThere planes.now k.0 d }
    ensures { result ≡ plane_words desk d (take (plane_width desk) (drop (k.0 * plane_width desk) planes.now)) }
{
    hyperplane_sound(hyperplane_at(planes, k), d)
}

// The hyperplanes in use, and zero bits past them.
fn planes_sound(planes: &[f64], d: usize, h: usize) -> bool
    requires { PlanesThere planes.now d h }
    ensures { result ≡ planes_sound desk d h planes.now }
{
    for i in 0..h {
        if !plane_sound(planes, HyperplaneId(i), d) {
            return false;
        }
    }
    blank_floats(planes, h * PLANE_WIDTH, PLANE_FLOATS)
}

// The two slices of floats.
fn floats_along(points: &[f64], planes: &[f64], d: usize, v: usize, h: usize) -> bool
    requires { FloatsReady points.now planes.now d v h }
    ensures { result ≡ floats_sound desk d v h points.now planes.now }
{
    points_sound(points, d, v) && planes_sound(planes, d, h)
}

// The same; with the dimension as a number the axes are gone over with no loop.
pub fn floats_sound(points: &[f64], planes: &[f64], d: usize, v: usize, h: usize) -> bool
    requires { FloatsReady points.now planes.now d v h }
    ensures { result ≡ floats_sound desk d v h points.now planes.now }
{
    if d == 2 {
        return floats_along(points, planes, 2, v, h);
    }
    if d == 3 {
        return floats_along(points, planes, 3, v, h);
    }
    floats_along(points, planes, d, v, h)
}

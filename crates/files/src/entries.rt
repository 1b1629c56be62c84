// One record of a file as a row of the lent room: read where it stands, and filled up with zeros.
ghost use Rattle.std.specs.Prelude.{◌+◌, ◌*◌, ◌≤◌, ◌<◌, ◌≡◌, ltb, length, if◌then◌else◌};
ghost use Rattle.rules.specs.Limits.{desk};
ghost use Rattle.rules.specs.Lists.{pad};
ghost use Rattle.rules.specs.Floats.{plus_zero};
ghost use Rattle.rules.specs.Bytes.{float_at, floats_at};
ghost use Rattle.space.specs.Numbers.{row_width};
ghost use Rattle.files.specs.Entries.{PointReady, PlaneReady, plane_at, RowReady, row_at};

use lent_bytes::read;
use rules::Hyperplane;
use soundness::row::HEAD;
use space::words::{AXES, WIDTH};

// A float of a record: zero past the dimension.
fn component(bytes: &[u8], from: usize, d: usize, axis: usize) -> f64
    requires d_in_bounds { from + 8 * d ≤ length bytes.now }
    requires axis_lt_dimensions { axis < desk.dimensions }
    ensures { result ≡ (if ltb axis d then float_at (from + 8 * axis) bytes.now else plus_zero) }
{
    if axis < d {
        return read::float(bytes, from + 8 * axis);
    }
    0.0
}

pub fn point_at(bytes: &[u8], at: usize, d: usize) -> [f64; AXES]
    requires { PointReady bytes.now at d }
    ensures { result ≡ pad plus_zero desk.dimensions (floats_at d (at + 2) bytes.now) }
{
    let from = at + 2;
    let x0 = component(bytes, from, d, 0);
    let x1 = component(bytes, from, d, 1);
    let x2 = component(bytes, from, d, 2);
    let x3 = component(bytes, from, d, 3);
    [x0, x1, x2, x3]
}

pub fn plane_at(bytes: &[u8], at: usize, d: usize) -> Hyperplane
    requires { PlaneReady bytes.now at d }
    ensures { result ≡ plane_at at d bytes.now }
{
    let normal = point_at(bytes, at, d);
    let distance = read::float(bytes, at + 2 + 8 * d);
    Hyperplane { normal, distance }
}

// Rank and mark have a byte each, all else two. The index of a boundary number is its place in the row and in the bytes.
pub fn row_at(bytes: &[u8], at: usize) -> [u16; WIDTH]
    requires { RowReady bytes.now at }
    ensures { result ≡ pad 0 row_width (row_at at bytes.now) }
{
    let n = read::number::<2>(bytes, at + 6) as usize;
    let mut row = [0u16; WIDTH];
    row[0] = read::number::<1>(bytes, at + 2) as u16;
    row[1] = read::number::<1>(bytes, at + 3) as u16;
    row[2] = read::number::<2>(bytes, at + 4) as u16;
    row[3] = n as u16;
    for j in 0..n {
        row[HEAD + j] = read::number::<2>(bytes, at + 8 + 2 * j) as u16;
    }
    row
}

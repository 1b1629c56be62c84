// The table that a file says, written into the four lent slices. The file was judged before: nothing is refused here, and every word is written.
ghost use Rattle.std.specs.Prelude.{◌≤◌, [], ◌∷◌, ◌≡◌};
ghost use Rattle.rules.specs.Limits.{desk};
ghost use Rattle.rules.specs.Lists.{pad};
ghost use Rattle.rules.specs.Floats.{plus_zero};
ghost use Rattle.rules.specs.Memory.{plane_row, plane_width};
ghost use Rattle.rules.specs.Held.{element_words};
ghost use Rattle.rules.specs.Files.{point_in, plane_in, element_in};
ghost use Rattle.space.specs.Numbers.{row_width, point_slice, plane_slice, element_slice};
ghost use Rattle.files.specs.Putting.{RecordsReady, RecordsPut, CountsReady, PutReady, TablePut};

use crate::entries::{plane_at, point_at, row_at};
use crate::layout::{HEADER, Laid};
use space::words::{AXES, PLANE_WIDTH, WIDTH, wide};
use space::{memo, rows};

// Three loops of one shape: one over a step that writes would say what each step leaves of the slice, in clauses longer than the loops.
// A vertex's record has a mark, and 8 bytes for each coordinate.
fn put_points(bytes: &[u8], from: usize, n: usize, d: usize, points: &mut [f64])
    requires d_le_dimensions { d ≤ desk.dimensions }
    requires records_ready { RecordsReady (point_in d) (pad plus_zero desk.dimensions) desk.dimensions point_slice bytes.now from n points.old }
    ensures { RecordsPut (point_in d) (pad plus_zero desk.dimensions) plus_zero point_slice bytes.now from n points.new }
{
    let mut at = from;
    for i in 0..n {
        let p = point_at(bytes, at, d);
        memo::put_point(points, i * AXES, p);
        at = at + 2 + 8 * d;
    }
    points[n * AXES..].fill(0.0);
}

// A hyperplane's has 8 more, its distance behind the normal.
fn put_planes(bytes: &[u8], from: usize, n: usize, d: usize, planes: &mut [f64])
    requires d_le_dimensions { d ≤ desk.dimensions }
    requires records_ready { RecordsReady (plane_in d) (plane_row desk) (plane_width desk) plane_slice bytes.now from n planes.old }
    ensures { RecordsPut (plane_in d) (plane_row desk) plus_zero plane_slice bytes.now from n planes.new }
{
    let mut at = from;
    for i in 0..n {
        let h = plane_at(bytes, at, d);
        let row = memo::hyperplane_row(h);
        memo::put_hyperplane(planes, i * PLANE_WIDTH, row);
        at = at + 10 + 8 * d;
    }
    planes[n * PLANE_WIDTH..].fill(0.0);
}

// An element's has 8 bytes before its boundary, whose count is the row's fourth word.
fn put_elements(bytes: &[u8], from: usize, n: usize, elements: &mut [u16])
    requires { RecordsReady element_in (element_words desk) row_width element_slice bytes.now from n elements.old }
    ensures { RecordsPut element_in (element_words desk) 0 element_slice bytes.now from n elements.new }
{
    let mut at = from;
    for i in 0..n {
        let row = row_at(bytes, at);
        rows::put_row(elements, i * WIDTH, &row);
        at = at + 8 + 2 * wide(row[3]);
    }
    elements[n * WIDTH..].fill(0);
}

// By `as`, as wherever a count that fits becomes a word: the library has no `From` here, and `try_from` would need a case that never comes.
fn put_counts(laid: Laid, counts: &mut [u16])
    requires { CountsReady laid counts.old }
    ensures { counts.new ≡ laid.dimension ∷ laid.elements ∷ laid.vertices ∷ laid.hyperplanes ∷ [] }
{
    counts[0] = laid.dimension as u16;
    counts[1] = laid.elements as u16;
    counts[2] = laid.vertices as u16;
    counts[3] = laid.hyperplanes as u16;
}

pub fn put(
    bytes: &[u8],
    laid: Laid,
    counts: &mut [u16],
    points: &mut [f64],
    planes: &mut [f64],
    elements: &mut [u16],
)
    requires { PutReady bytes.now laid counts.old points.old planes.old elements.old }
    ensures { TablePut bytes.now counts.new points.new planes.new elements.new }
{
    put_counts(laid, counts);
    put_points(bytes, HEADER, laid.vertices, laid.dimension, points);
    put_planes(
        bytes,
        laid.planes_at,
        laid.hyperplanes,
        laid.dimension,
        planes,
    );
    put_elements(bytes, laid.elements_at, laid.elements, elements);
}

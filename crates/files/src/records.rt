// The records of a file, written out of the rows of the lent slices, each behind the one before.
ghost use Rattle.std.specs.Prelude.{◌≤◌};
ghost use Rattle.rules.specs.Limits.{desk};
ghost use Rattle.rules.specs.Memory.{plane_width};
ghost use Rattle.space.specs.Numbers.{row_width};
ghost use Rattle.lent_bytes.specs.Lent.{Put};
ghost use Rattle.files.specs.Saved.{header_saved, point_saved, plane_saved, row_saved, point_clear, plane_clear, count_fits, row_at, saved, RowReady, RowsReady, HeaderReady};

use lent_bytes::write;
use soundness::row::HEAD;
use space::words::{AXES, COUNTS, PLANE_WIDTH, WIDTH, wide};

// A mark is an array in each function, for the same reason as in `layout`: no text lies in memory.
pub fn header(counts: &[u16], room: &mut [u8], at: usize) -> usize
    requires { HeaderReady counts.now room.old at }
    ensures { Put room.old at (header_saved counts.now) result room.new }
{
    let mark = [b'H', b'D'];
    let end = write::word(&mark, room, at);
    write::numbers(2, counts, 0, COUNTS, room, end)
}

fn vertex_record(points: &[f64], i: usize, d: usize, room: &mut [u8], at: usize) -> usize
    requires d_le_dimensions { d ≤ desk.dimensions }
    requires row_ready { RowReady (point_clear d) (point_saved d) desk.dimensions i points.now room.old at }
    ensures { Put room.old at (point_saved d (row_at desk.dimensions i points.now)) result room.new }
{
    let from = i * AXES;
    let mark = [b'V', b'X'];
    let end = write::word(&mark, room, at);
    write::floats(points, from, from + d, room, end)
}

// Three loops of one shape: one over a step that writes would say what each step finds in the room and puts there, in clauses longer than the loops.
pub fn vertices(points: &[f64], n: usize, d: usize, room: &mut [u8], at: usize) -> usize
    requires d_le_dimensions { d ≤ desk.dimensions }
    requires rows_ready { RowsReady (point_clear d) (point_saved d) desk.dimensions n points.now room.old at }
    ensures { Put room.old at (saved (point_saved d) desk.dimensions n points.now) result room.new }
{
    let mut end = at;
    for i in 0..n {
        end = vertex_record(points, i, d, room, end);
    }
    end
}

// The components, then the distance.
fn hyperplane_record(planes: &[f64], i: usize, d: usize, room: &mut [u8], at: usize) -> usize
    requires d_le_dimensions { d ≤ desk.dimensions }
    requires row_ready { RowReady (plane_clear d) (plane_saved d) (plane_width desk) i planes.now room.old at }
    ensures { Put room.old at (plane_saved d (row_at (plane_width desk) i planes.now)) result room.new }
{
    let from = i * PLANE_WIDTH;
    let mark = [b'H', b'P'];
    let end = write::word(&mark, room, at);
    let last = write::floats(planes, from, from + d, room, end);
    write::float(planes[from + AXES], room, last)
}

pub fn hyperplanes(planes: &[f64], n: usize, d: usize, room: &mut [u8], at: usize) -> usize
    requires d_le_dimensions { d ≤ desk.dimensions }
    requires rows_ready { RowsReady (plane_clear d) (plane_saved d) (plane_width desk) n planes.now room.old at }
    ensures { Put room.old at (saved (plane_saved d) (plane_width desk) n planes.now) result room.new }
{
    let mut end = at;
    for i in 0..n {
        end = hyperplane_record(planes, i, d, room, end);
    }
    end
}

// Rank and primordial mark in a byte each, and the rest of the row, up to its boundary's end, in two.
fn element_record(elements: &[u16], e: usize, room: &mut [u8], at: usize) -> usize
    requires { RowReady count_fits row_saved row_width e elements.now room.old at }
    ensures { Put room.old at (row_saved (row_at row_width e elements.now)) result room.new }
{
    let row = e * WIDTH;
    let n = wide(elements[row + 3]);
    let mark = [b'E', b'L'];
    let end = write::word(&mark, room, at);
    let middle = write::numbers(1, elements, row, row + 2, room, end);
    write::numbers(2, elements, row + 2, row + HEAD + n, room, middle)
}

pub fn elements(elements: &[u16], n: usize, room: &mut [u8], at: usize) -> usize
    requires { RowsReady count_fits row_saved row_width n elements.now room.old at }
    ensures { Put room.old at (saved row_saved row_width n elements.now) result room.new }
{
    let mut end = at;
    for e in 0..n {
        end = element_record(elements, e, room, end);
    }
    end
}

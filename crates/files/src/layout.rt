// The layout of a file, record by record: that it is broken, or where each kind of record begins. Nothing is kept of what is read.
ghost use Rattle.std.specs.Prelude.{ℕ, ◌≤◌, ◌≡◌, length, drop, slice_index};
ghost use Rattle.rules.specs.Files.{point_in, plane_in, element_fits, element_in};
ghost use Rattle.files.specs.Passed.{begins, Place, Ends, Repeats};
ghost use Rattle.files.specs.Laid.{LayoutTold};

use lent_bytes::read;
use space::words::NO_PLANE;

// How many bytes a header has, and how many of them are numbers, behind the mark; and of an element's record, before its boundary.
pub const HEADER: usize = 10;

const HEADER_NUMBERS: usize = 8;

const ELEMENT_NUMBERS: usize = 6;

// What the header of a file that has the layout says, and where its hyperplanes and its elements begin. Its vertices follow the header.
#[derive(Clone, Copy)]
pub struct Laid {
    pub dimension: usize,
    pub elements: usize,
    pub vertices: usize,
    pub hyperplanes: usize,
    pub planes_at: usize,
    pub elements_at: usize,
}

// Whether a mark is there, with so many bytes behind it. By value: behind a reference it would be data of the module for browsers, which has none.
fn begins_with(bytes: &[u8], at: usize, mark: [u8; 2], rest: usize) -> bool
    requires { at ≤ length bytes.now }
    ensures { result ≡ begins (slice_index mark 0) (slice_index mark 1) rest (drop at bytes.now) }
{
    let here = &bytes[at..];
    here.starts_with(&mark) && rest <= here.len() - 2
}

fn point(bytes: &[u8], at: usize, d: usize) -> Option<usize>
    requires { Place bytes.now at d }
    ensures { Ends (point_in d) bytes.now at result }
{
    let rest = 8 * d;
    if !begins_with(bytes, at, [b'V', b'X'], rest) {
        return None;
    }
    Some(at + 2 + rest)
}

fn plane(bytes: &[u8], at: usize, d: usize) -> Option<usize>
    requires { Place bytes.now at d }
    ensures { Ends (plane_in d) bytes.now at result }
{
    let rest = 8 * d + 8;
    if !begins_with(bytes, at, [b'H', b'P'], rest) {
        return None;
    }
    Some(at + 2 + rest)
}

// A primordial byte is 0 or 1, and a corner has one fixed form.
fn head_fits(rank: u64, mark: u64, plane: u64, n: u64) -> bool
    ensures { result ≡ element_fits rank mark plane n }
{
    let as_corner = mark == 0 && plane == u64::from(NO_PLANE) && n == 1;
    mark <= 1 && (rank != 0 || as_corner)
}

fn element(bytes: &[u8], at: usize) -> Option<usize>
    requires { at ≤ length bytes.now }
    ensures { Ends element_in bytes.now at result }
{
    if !begins_with(bytes, at, [b'E', b'L'], ELEMENT_NUMBERS) {
        return None;
    }
    let rank = read::number::<1>(bytes, at + 2);
    let mark = read::number::<1>(bytes, at + 3);
    let plane = read::number::<2>(bytes, at + 4);
    let n = read::number::<2>(bytes, at + 6);
    if !head_fits(rank, mark, plane, n) {
        return None;
    }
    let size = 2 * n as usize;
    if bytes.len() - at - 8 < size {
        return None;
    }
    Some(at + 8 + size)
}

// Step after step, each from where the one before it ends; it stops at the first that does not fit.
fn many_of<F: Fn(usize) -> Option<usize>>(step: F, at: usize, n: usize) -> Option<usize>
    requires first { F.pre step at }
    requires again { (place end : ℕ) → F.pre step place → F.post step place (Some end) → F.pre step end }
    ensures { Repeats (λ place p. F.post step place p) at n result }
{
    let mut end = at;
    for _passed in 0..n {
        end = step(end)?;
    }
    Some(end)
}

// The layout test of a file (13): its header, so many records of each kind, and no byte more.
pub fn laid_out(bytes: &[u8]) -> Option<Laid>
    ensures { LayoutTold bytes.now result }
{
    if !begins_with(bytes, 0, [b'H', b'D'], HEADER_NUMBERS) {
        return None;
    }
    let dimension = read::number::<2>(bytes, 2) as usize;
    let elements = read::number::<2>(bytes, 4) as usize;
    let vertices = read::number::<2>(bytes, 6) as usize;
    let hyperplanes = read::number::<2>(bytes, 8) as usize;
    let vertex_end = |at: usize|
        requires { Place bytes.now at dimension }
        ensures { Ends (point_in dimension) bytes.entry.now at result }
    { point(bytes, at, dimension) };
    let plane_end = |at: usize|
        requires { Place bytes.now at dimension }
        ensures { Ends (plane_in dimension) bytes.entry.now at result }
    { plane(bytes, at, dimension) };
    let element_end = |at: usize|
        requires { at ≤ length bytes.now }
        ensures { Ends element_in bytes.entry.now at result }
    { element(bytes, at) };
    let planes_at = many_of(vertex_end, HEADER, vertices)?;
    let elements_at = many_of(plane_end, planes_at, hyperplanes)?;
    let end = many_of(element_end, elements_at, elements)?;
    if end != bytes.len() {
        return None;
    }
    Some(Laid {
        dimension,
        elements,
        vertices,
        hyperplanes,
        planes_at,
        elements_at,
    })
}

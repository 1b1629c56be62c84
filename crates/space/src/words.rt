// The room of a table in the four slices, and their words as numbers.
ghost use Rattle.std.specs.Prelude.{◌≡◌};
ghost use Rattle.rules.specs.Limits.{desk};
ghost use Rattle.rules.specs.Memory.{right_size};
ghost use Rattle.space.specs.Numbers.{NumberBelow};
ghost use Rattle.space.specs.Lent.{lent};

use crate::memory::Memory;

// Room for so many vertices, elements and hyperplanes.
pub const VERTICES: usize = 256;

pub const ELEMENTS: usize = 512;

pub const HYPERPLANES: usize = 64;

// And for so many numbers in a boundary.
pub const BOUNDARY: usize = 32;

// The places of a set of numbers: one more than a boundary has, so that rule 8 can refuse.
pub const SET: usize = 33;

// The dimension, and how many elements, vertices and hyperplanes are in use.
pub const COUNTS: usize = 4;

// How many floats a point has, the most dimensions; and a hyperplane, with its distance.
pub const AXES: usize = 4;

pub const PLANE_WIDTH: usize = 5;

// How many words an element's row has: rank, mark, hyperplane, count, and room for a boundary of 32.
pub const WIDTH: usize = 36;

// The lengths of the slices of points, hyperplanes and elements.
pub const POINT_FLOATS: usize = 1024;

pub const PLANE_FLOATS: usize = 320;

pub const ELEMENT_WORDS: usize = 18432;

// What an element that names no hyperplane has in its place.
pub const NO_PLANE: u16 = 65535;

// A word as a number to count and index with; a function of its own, whose contract gives proofs the bound of a word.
pub fn wide(x: u16) -> usize
    ensures { NumberBelow result x 65536 }
{
    usize::from(x)
}

// Whether the four slices are the room of a table.
pub fn right_size(memory: Memory) -> bool
    ensures { result ≡ right_size desk (lent memory.entry) }
{
    let Memory {
        counts,
        points,
        planes,
        elements,
    } = memory;
    counts.len() == COUNTS
        && points.len() == POINT_FLOATS
        && planes.len() == PLANE_FLOATS
        && elements.len() == ELEMENT_WORDS
}

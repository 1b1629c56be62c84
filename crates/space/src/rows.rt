// Rows of elements in the lent memory: read, written, and made.
ghost use Rattle.std.specs.Prelude.{◌+◌, ◌*◌, ◌≡◌, eqb, get_or};
ghost use Rattle.std.proofs.lemmas.List.Edits.{sets};
ghost use Rattle.rules.specs.Limits.{desk};
ghost use Rattle.rules.specs.Table.{polytope};
ghost use Rattle.rules.specs.Memory.{plane_named};
ghost use Rattle.rules.specs.Held.{element_words};
ghost use Rattle.space.specs.Numbers.{row_width};
ghost use Rattle.space.specs.Ready.{ElementReady, BoundaryAtReady, PutRowReady, PolytopeRowReady};

use crate::words::{WIDTH, wide};
use rules::ElementId;

pub fn rank_of(elements: &[u16], e: ElementId) -> usize
    requires { ElementReady elements.now e.0 }
    ensures { result ≡ get_or elements.now (e.0 * row_width) 0 }
{
    let at = e.0 * WIDTH;
    wide(elements[at])
}

pub fn is_primordial(elements: &[u16], e: ElementId) -> bool
    requires { ElementReady elements.now e.0 }
    ensures { result ≡ eqb (get_or elements.now (e.0 * row_width + 1) 0) 1 }
{
    let at = e.0 * WIDTH;
    elements[at + 1] == 1
}

// A hyperplane's number, or FFFF where there is none.
pub fn plane_of(elements: &[u16], e: ElementId) -> u16
    requires { ElementReady elements.now e.0 }
    ensures { result ≡ get_or elements.now (e.0 * row_width + 2) 0 }
{
    let at = e.0 * WIDTH;
    elements[at + 2]
}

pub fn size_of(elements: &[u16], e: ElementId) -> usize
    requires { ElementReady elements.now e.0 }
    ensures { result ≡ get_or elements.now (e.0 * row_width + 3) 0 }
{
    let at = e.0 * WIDTH;
    wide(elements[at + 3])
}

// An element's number; of a corner, its vertex's number.
pub fn boundary_at(elements: &[u16], e: ElementId, i: usize) -> u16
    requires { BoundaryAtReady elements.now e.0 i }
    ensures { result ≡ get_or elements.now (e.0 * row_width + (4 + i)) 0 }
{
    let at = e.0 * WIDTH;
    elements[at + (4 + i)]
}

pub fn put_row(elements: &mut [u16], at: usize, row: &[u16])
    requires { PutRowReady elements.old at row.now }
    ensures { elements.new ≡ sets elements.old at row.now }
{
    elements[at..at + WIDTH].copy_from_slice(row);
}

// A boundary has place in a row: rule 8 refuses a longer one before.
pub fn polytope_row(rank: usize, list: &[u16], plane: u16, mark: bool) -> [u16; WIDTH]
    requires { PolytopeRowReady list.now rank }
    ensures { result ≡ element_words desk (polytope rank list.now (plane_named plane) mark) }
{
    let n = list.len();
    let mut row = [0u16; WIDTH];
    row[0] = rank as u16;
    row[1] = u16::from(mark);
    row[2] = plane;
    row[3] = n as u16;
    row[4..4 + n].copy_from_slice(list);
    row
}

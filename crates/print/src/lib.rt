// Document 02, order 11: a piece of three dimensions as binary STL. 3, 4, 6, 16, then 12; refused, the room is as it came.
#![tactic(auto)]

mod triangles;

ghost use Rattle.std.specs.Prelude.{map, ◌≡◌};
ghost use Rattle.rules.specs.Limits.{desk};
ghost use Rattle.rules.specs.Lists.{joined};
ghost use Rattle.rules.specs.Questions.{answer};
ghost use Rattle.rules.specs.Replies.{listed};
ghost use Rattle.rules.specs.Print.{print_reply};
ghost use Rattle.space.specs.Lent.{lent};
ghost use Rattle.space.specs.Numbers.{NumberBelow};
ghost use Rattle.lent_bytes.specs.Lent.{Put};
ghost use Rattle.walk.specs.Boundaries.{row_boundary};
ghost use Rattle.print.specs.Pieces.{face_in, count_in, file_in, FacesReady, SolidReady, PieceReady};

use lent_bytes::write;
use rules::{ElementId, Refusal, Reply};
use space::memory::Memory;
use space::rows;
use space::words::wide;
use triangles::face;
use walk::facet::has_primordial_facet;

// How many bytes the header has, the count with it, and a triangle.
const HEADER: usize = 80;

const HEAD: usize = 84;

const TRIANGLE: usize = 50;

// Of each face two fewer than it has edges.
fn triangle_count(elements: &[u16], root: ElementId) -> usize
    requires { FacesReady elements.now root.0 }
    ensures { NumberBelow result (count_in elements.now root.0) 1024 }
{
    let n = rows::size_of(elements, root);
    let mut count = 0usize;
    for i in 0..n {
        let f = ElementId(wide(rows::boundary_at(elements, root, i)));
        count = count + (rows::size_of(elements, f) - 2);
    }
    count
}

// The triangles of all faces, which rise. They are counted: a slice of them would be one more public function, and no shorter.
fn faces(points: &[f64], elements: &[u16], root: ElementId, room: &mut [u8], at: usize) -> usize
    requires { PieceReady points.now elements.now root.0 room.old at }
    ensures { Put room.old at (joined (map (face_in points.now elements.now) (row_boundary elements.now root.0))) result room.new }
{
    let n = rows::size_of(elements, root);
    let mut end = at;
    for i in 0..n {
        let f = ElementId(wide(rows::boundary_at(elements, root, i)));
        end = face(points, elements, f, room, end);
    }
    end
}

// 12, and only then is the file written.
fn solid(points: &[f64], elements: &[u16], root: ElementId, file: &mut [u8]) -> Reply<usize>
    requires { SolidReady points.now elements.now root.0 }
    ensures { (result, file.new) ≡ listed (answer (file_in points.now elements.now root.0)) file.old }
{
    let n = triangle_count(elements, root);
    if file.len() < HEAD + TRIANGLE * n {
        return Err(Refusal::RoomShort);
    }
    let counted = write::number(HEADER, 0, file, 0);
    let start = write::number(4, n as u64, file, counted);
    let end = faces(points, elements, root, file, start);
    Ok(end)
}

// The print file of a piece at the front of the room.
pub fn stl(memory: Memory, root: ElementId, file: &mut [u8]) -> Reply<usize>
    ensures { (result, file.new) ≡ print_reply desk (lent memory.entry) root.0 file.old }
{
    let primordial = has_primordial_facet(memory, root)?;
    if wide(memory.counts[0]) != 3 {
        return Err(Refusal::Rank);
    }
    if primordial {
        return Err(Refusal::PrimordialFacet);
    }
    solid(memory.points, memory.elements, root, file)
}

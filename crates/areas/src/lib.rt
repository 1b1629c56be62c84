// The area sheet of some flat pieces, in exact numbers (document 02, order 13). Whole numbers only: no float is added, and nothing wraps.
#![tactic(auto)]

pub mod grid;
pub mod piece;

ghost use Rattle.std.specs.Prelude.{◌≡◌, map, pos, unsigned_abs};
ghost use Rattle.std.proofs.lemmas.List.Edits.{sets};
ghost use Rattle.rules.specs.Limits.{desk};
ghost use Rattle.rules.specs.Lists.{all};
ghost use Rattle.rules.specs.Replies.{listed};
ghost use Rattle.rules.specs.Areas.{areas_reply};
ghost use Rattle.space.specs.Lent.{lent};
ghost use Rattle.areas.specs.Words.{word_area, words_on_grid, word_sheet, sheet_asked, row_is_face, PiecesFit, PiecesUsed, SheetFits, Sized, AreasWritten};

use crate::piece::{is_piece_on_grid, twice_area};
use rules::{ElementId, Refusal, Reply};
use soundness::asked::all_used;
use soundness::sound::memory_sound;
use space::memory::Memory;
use space::rows;
use space::words::wide;

const MOST_PIECES: usize = 16;

fn are_faces(elements: &[u16], pieces: &[u16]) -> bool
    requires { PiecesUsed elements.now pieces.now }
    ensures { result ≡ all (row_is_face elements.now) pieces.now }
{
    pieces
        .iter()
        .all(|&f| rows::rank_of(elements, ElementId(wide(f))) == 2)
}

fn are_on_grid(points: &[f64], elements: &[u16], pieces: &[u16]) -> bool
    requires { PiecesFit points.now elements.now pieces.now }
    ensures { result ≡ all (words_on_grid points.now elements.now) pieces.now }
{
    pieces.iter().all(|&f| is_piece_on_grid(points, elements, ElementId(wide(f))))
}

// An area without its sign.
fn size_of(area: i64) -> i64
    requires { Sized area }
    ensures { result ≡ pos (unsigned_abs area) }
{
    area.abs()
}

// The areas, and the sum of their sizes.
fn write_areas(points: &[f64], elements: &[u16], pieces: &[u16], areas: &mut [i64]) -> i64
    requires { SheetFits points.now elements.now pieces.now areas.old }
    ensures { AreasWritten (map (word_area points.now elements.now) pieces.now) areas.old areas.new result }
{
    let mut sum = 0i64;
    for (i, &f) in pieces.iter().enumerate() {
        let area = twice_area(points, elements, ElementId(wide(f)));
        areas[i] = area;
        sum = sum + size_of(area);
    }
    sum
}

fn write_sheet(points: &[f64], elements: &[u16], pieces: &[u16], areas: &mut [i64])
    requires { SheetFits points.now elements.now pieces.now areas.old }
    ensures { areas.new ≡ sets areas.old 0 (word_sheet points.now elements.now pieces.now) }
{
    let n = pieces.len();
    let sum = write_areas(points, elements, pieces, areas);
    areas[n] = n as i64;
    areas[n + 1] = sum;
}

// 25 of all pieces, then 12, and only then is the room written.
fn sheet_of(points: &[f64], elements: &[u16], pieces: &[u16], areas: &mut [i64]) -> Reply<usize>
    requires { PiecesFit points.now elements.now pieces.now }
    ensures { (result, areas.new) ≡ listed (sheet_asked points.now elements.now pieces.now) areas.old }
{
    if !are_on_grid(points, elements, pieces) {
        return Err(Refusal::OffGrid);
    }
    let n = pieces.len() + 2;
    if areas.len() < n {
        return Err(Refusal::RoomShort);
    }
    write_sheet(points, elements, pieces, areas);
    Ok(n)
}

// 3, 26, 4, 6, 25, 12, each of all pieces before the next; the room gets the areas, their count, and the sum of their sizes.
pub fn areas(memory: Memory, pieces: &[u16], areas: &mut [i64]) -> Reply<usize>
    ensures { (result, areas.new) ≡ areas_reply desk (lent memory.entry) pieces.now areas.old }
{
    if !memory_sound(memory) {
        return Err(Refusal::NotSound);
    }
    if MOST_PIECES < pieces.len() {
        return Err(Refusal::ListLong);
    }
    if !all_used(pieces, memory.counts[1]) {
        return Err(Refusal::NotInUse);
    }
    if memory.counts[0] != 2 {
        return Err(Refusal::Rank);
    }
    if !are_faces(memory.elements, pieces) {
        return Err(Refusal::Rank);
    }
    sheet_of(memory.points, memory.elements, pieces, areas)
}

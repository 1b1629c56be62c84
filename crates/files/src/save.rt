// Document 02, order 1: a table saved as its one file. 3, then 12; refused, the room is as it came.
ghost use Rattle.std.specs.Prelude.{◌≤◌, true, ◌≡◌, length};
ghost use Rattle.rules.specs.Limits.{desk};
ghost use Rattle.rules.specs.Memory.{decode, sound_memory};
ghost use Rattle.rules.specs.Files.{file_of, save_reply};
ghost use Rattle.space.specs.Lent.{lent};
ghost use Rattle.space.specs.Numbers.{row_width, NumberBelow};
ghost use Rattle.lent_bytes.specs.Lent.{Put};
ghost use Rattle.files.specs.Saved.{row_saved, saved, file_size, RowsUsed, SizeReady};

use crate::layout::HEADER;
use crate::records;
use rules::{Refusal, Reply};
use soundness::sound::memory_sound;
use space::memory::Memory;
use space::words::{WIDTH, wide};

// How many bytes the records of the first n rows of elements have: 8 each, and 2 for each number of a boundary. A loop: that the `sum` of a chain fits was not proved.
fn elements_size(elements: &[u16], n: usize) -> usize
    requires { RowsUsed elements.now n }
    ensures { NumberBelow result (length (saved row_saved row_width n elements.now)) 65536 }
{
    let mut size = 0;
    for e in 0..n {
        size = size + 8 + 2 * wide(elements[e * WIDTH + 3]);
    }
    size
}

// The header has 10 bytes, a vertex 2 and 8 for each coordinate, a hyperplane 8 more for its distance.
fn file_size(counts: &[u16], elements: &[u16]) -> usize
    requires { SizeReady counts.now elements.now }
    ensures { result ≡ file_size counts.now elements.now }
{
    let d = wide(counts[0]);
    let n = wide(counts[1]);
    let v = wide(counts[2]);
    let h = wide(counts[3]);
    let records = elements_size(elements, n);
    HEADER + v * (2 + 8 * d) + h * (10 + 8 * d) + records
}

// All of it, where the room is long enough.
fn table(memory: Memory, file: &mut [u8]) -> usize
    requires is_sound { sound_memory desk (lent memory) ≡ true }
    requires fits_room { length (file_of (decode desk (lent memory))) ≤ length file.old }
    ensures { Put file.old 0 (file_of (decode desk (lent memory.entry))) result file.new }
{
    let d = wide(memory.counts[0]);
    let n = wide(memory.counts[1]);
    let v = wide(memory.counts[2]);
    let h = wide(memory.counts[3]);
    let points_at = records::header(memory.counts, file, 0);
    let planes_at = records::vertices(memory.points, v, d, file, points_at);
    let elements_at = records::hyperplanes(memory.planes, h, d, file, planes_at);
    records::elements(memory.elements, n, file, elements_at)
}

// The file of a table at the front of the room.
pub fn save(memory: Memory, file: &mut [u8]) -> Reply<usize>
    ensures { (result, file.new) ≡ save_reply desk (lent memory.entry) file.old }
{
    if !memory_sound(memory) {
        return Err(Refusal::NotSound);
    }
    if file.len() < file_size(memory.counts, memory.elements) {
        return Err(Refusal::RoomShort);
    }
    Ok(table(memory, file))
}

// Document 01, "A table is sound when", over the words of the lent memory: one function for each of its lines.
ghost use Rattle.std.specs.Prelude.{◌*◌, ◌≡◌, ◌&&◌, length, take, drop};
ghost use Rattle.rules.specs.Limits.{desk};
ghost use Rattle.rules.specs.Memory.{sound_memory};
ghost use Rattle.rules.specs.Replies.{is_sound_reply};
ghost use Rattle.space.specs.Numbers.{row_width};
ghost use Rattle.space.specs.Chains.{Indexed};
ghost use Rattle.space.specs.Lent.{lent};
ghost use Rattle.soundness.specs.Words.{blank_words, counts_fit, row_sound, rows_in_use, rows_distinct, rows_sound};
ghost use Rattle.soundness.specs.Tests.{PartOf, StoredReady, RowTested, RowsReady, RowsTested, MemoryTested};

use crate::chains::row_new;
use crate::floats::floats_sound;
use crate::row::{HEAD, MASK, Spacing, one_if_corner, past_mask, row_sound};
use rules::{ElementId, Refusal, Reply, VertexId};
use space::chains::INDEX;
use space::memory::Memory;
use space::words::{
    AXES, BOUNDARY, ELEMENT_WORDS, ELEMENTS, HYPERPLANES, VERTICES, WIDTH, right_size, wide,
};

// The dimension and every count fit the room, and the hyperplanes of the space are there.
pub fn counts_fit(d: usize, n: usize, v: usize, h: usize) -> bool
    ensures { result ≡ counts_fit desk d n v h }
{
    if d < 1 || AXES < d || VERTICES < v || ELEMENTS < n || HYPERPLANES < h {
        return false;
    }
    d == 1 || 2 * d <= h
}

// Unused words are zero. Their bits are gathered to the end whatever is met, so that many words are read at once.
fn blank_words(list: &[u16], from: usize, to: usize) -> bool
    requires { PartOf from to (length list.now) }
    ensures { result ≡ blank_words (drop from (take to list.now)) }
{
    let mut seen = 0u16;
    for &word in &list[from..to] {
        seen = seen | word;
    }
    seen == 0
}

// The row of element e in the memory, whose earlier rows tell of the elements before it.
fn stored_row_sound(
    elements: &[u16],
    e: ElementId,
    d: usize,
    h: usize,
    k: VertexId,
    met: &mut [u32; ELEMENTS],
    past: &[u16; MASK],
    seen: &mut [u16; BOUNDARY],
) -> bool
    requires { StoredReady elements.now e.0 met.old past.now seen.old }
    ensures { RowTested (row_sound desk elements.now d h k.0 e.0) elements.now (e.0 * row_width) e.0 result met.new seen.old seen.new }
{
    let spacing = Spacing {
        width: WIDTH,
        ends: HEAD,
    };
    row_sound(
        elements,
        e.0 * WIDTH,
        elements,
        spacing,
        e,
        d,
        h,
        k,
        met,
        past,
        seen,
    )
}

// The rows in use, in one pass: each is sound and equal to no earlier one, and vertex elements name vertices 0, 1, 2 .. in order, each once. From an empty index to that of all of them.
fn rows_in_use(elements: &[u16], d: usize, n: usize, v: usize, h: usize, index: &mut [u16]) -> bool
    requires { RowsReady elements.now n index.old }
    ensures { RowsTested (rows_in_use desk d n v h elements.now && rows_distinct desk n elements.now) elements.now d n h index.old result index.new }
{
    let past = past_mask();
    let mut met = [0u32; ELEMENTS];
    let mut seen = [0u16; BOUNDARY];
    let mut k = 0usize;
    for i in 0..n {
        let e = ElementId(i);
        if !stored_row_sound(elements, e, d, h, VertexId(k), &mut met, &past, &mut seen) {
            return false;
        }
        if !row_new(elements, e, index) {
            return false;
        }
        k = k + one_if_corner(elements, i * WIDTH);
    }
    if k != v {
        return false;
    }
    blank_words(&seen, 0, BOUNDARY)
}

// The slice of elements: the rows in use, and zeros past them.
fn rows_along(elements: &[u16], d: usize, n: usize, v: usize, h: usize, index: &mut [u16]) -> bool
    requires { RowsReady elements.now n index.old }
    ensures { RowsTested (rows_sound desk d n v h elements.now) elements.now d n h index.old result index.new }
{
    if !rows_in_use(elements, d, n, v, h, index) {
        return false;
    }
    blank_words(elements, n * WIDTH, ELEMENT_WORDS)
}

// The same; with the dimension as a number a row's rank is compared with numbers.
fn rows_sound(elements: &[u16], d: usize, n: usize, v: usize, h: usize, index: &mut [u16]) -> bool
    requires { RowsReady elements.now n index.old }
    ensures { RowsTested (rows_sound desk d n v h elements.now) elements.now d n h index.old result index.new }
{
    if d == 2 {
        return rows_along(elements, 2, n, v, h, index);
    }
    if d == 3 {
        return rows_along(elements, 3, n, v, h, index);
    }
    rows_along(elements, d, n, v, h, index)
}

// Lengths and counts come first: the other tests rely on them. The rows that were read are in the index then: all in use where the memory is sound.
pub fn memory_indexed(memory: Memory, index: &mut [u16]) -> bool
    requires { Indexed memory.elements.now 0 index.old }
    ensures { MemoryTested (lent memory.entry) index.old result index.new }
{
    if !right_size(memory) {
        return false;
    }
    let d = wide(memory.counts[0]);
    let n = wide(memory.counts[1]);
    let v = wide(memory.counts[2]);
    let h = wide(memory.counts[3]);
    if !counts_fit(d, n, v, h) {
        return false;
    }
    if !floats_sound(memory.points, memory.planes, d, v, h) {
        return false;
    }
    rows_sound(memory.elements, d, n, v, h, index)
}

// The same, where the index is not asked for.
pub fn memory_sound(memory: Memory) -> bool
    ensures { result ≡ sound_memory desk (lent memory.entry) }
{
    let mut index = [0u16; INDEX];
    memory_indexed(memory, &mut index)
}

// Document 01, `is_sound`: done when the memory is sound, else 3.
pub fn is_sound(memory: Memory) -> Reply<()>
    ensures { result ≡ is_sound_reply desk (lent memory.entry) }
{
    if memory_sound(memory) {
        return Ok(());
    }
    Err(Refusal::NotSound)
}

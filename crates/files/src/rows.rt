// The rows of a file's elements, record by record, each by the test that a row of the memory has. Of the elements before it a few words each are kept.
ghost use Rattle.std.specs.Prelude.{◌≡◌, eqb};
ghost use Rattle.rules.specs.Lists.{alike};
ghost use Rattle.files.specs.Judged.{SaysFitting, Judged, laid_rows};
ghost use Rattle.files.specs.Kept.{kept_row, kept_with, RowKept, SearchKept, LastKept, RowReadyToKeep, NewJudged, KeepReady};

use crate::entries::row_at;
use crate::layout::Laid;
use rules::{ElementId, VertexId};
use soundness::row::{Spacing, one_if_corner, past_mask, row_sound};
use space::chains::{INDEX, KEYS, join, key_of, same_row};
use space::words::{BOUNDARY, ELEMENTS, WIDTH, wide};

// What is kept of an element: its rank, the first two numbers of its boundary, and how far behind the first record of an element its own stands.
const KEPT: usize = 4;

const KEPT_WORDS: usize = KEPT * ELEMENTS;

// Whether the row of an element that is kept is the given one: its first boundary number nearly always tells, and spares reading its record again.
fn same_as_kept(
    bytes: &[u8],
    laid: Laid,
    kept: &[u16; KEPT_WORDS],
    x: usize,
    row: &[u16; WIDTH],
) -> bool
    requires { RowKept bytes.now laid kept.now x row.now }
    ensures { result ≡ alike eqb row.now (kept_row bytes.now laid kept.now x) }
{
    if row[4] != kept[x * KEPT + 1] {
        return false;
    }
    let at = laid.elements_at + wide(kept[x * KEPT + 3]);
    let old = row_at(bytes, at);
    same_row(&old, 0, row, 0)
}

// Along the chain of the row's key down to its end: the lowest of the first n elements that has the row. A loop: the next place is read off the index, not counted.
fn last_kept(
    bytes: &[u8],
    laid: Laid,
    kept: &[u16; KEPT_WORDS],
    n: usize,
    row: &[u16; WIDTH],
    index: &[u16; INDEX],
) -> Option<usize>
    requires { SearchKept bytes.now laid kept.now n row.now index.now }
    ensures { LastKept bytes.now laid n row.now result }
{
    let mut met = None;
    let mut x = wide(index[key_of(row, 0)]);
    while 0 < x {
        if same_as_kept(bytes, laid, kept, x - 1, row) {
            met = Some(x - 1);
        }
        x = wide(index[KEYS + (x - 1)]);
    }
    met
}

// The row of element n is equal to no earlier one, and joins the index then.
fn row_new(
    bytes: &[u8],
    laid: Laid,
    kept: &[u16; KEPT_WORDS],
    n: usize,
    row: &[u16; WIDTH],
    index: &mut [u16; INDEX],
) -> bool
    requires { RowReadyToKeep bytes.now laid kept.now n row.now index.old }
    ensures { NewJudged bytes.now laid n index.old result index.new }
{
    if last_kept(bytes, laid, kept, n, row, index).is_some() {
        return false;
    }
    let key = key_of(row, 0);
    join(index, key, n);
    true
}

fn keep(kept: &mut [u16; KEPT_WORDS], n: usize, row: &[u16; WIDTH], place: usize)
    requires { KeepReady n place }
    ensures { kept.new ≡ kept_with kept.old n row.now place }
{
    let at = n * KEPT;
    kept[at] = row[0];
    kept[at + 1] = row[4];
    kept[at + 2] = row[5];
    kept[at + 3] = place as u16;
}

// Each row is sound and equal to no earlier one, and vertex elements name vertices 0, 1, 2 .. in order, each once. Nothing stands past a boundary: rows are read into zeros.
pub fn rows_judged(bytes: &[u8], laid: Laid) -> bool
    requires { SaysFitting bytes.now laid }
    ensures { Judged bytes.now laid (laid_rows laid) result }
{
    let past = past_mask();
    let spacing = Spacing {
        width: KEPT,
        ends: 1,
    };
    let mut met = [0u32; ELEMENTS];
    let mut seen = [0u16; BOUNDARY];
    let mut kept = [0u16; KEPT_WORDS];
    let mut index = [0u16; INDEX];
    let mut k = 0usize;
    let mut at = laid.elements_at;
    for i in 0..laid.elements {
        let row = row_at(bytes, at);
        if !row_sound(
            &row,
            0,
            &kept,
            spacing,
            ElementId(i),
            laid.dimension,
            laid.hyperplanes,
            VertexId(k),
            &mut met,
            &past,
            &mut seen,
        ) {
            return false;
        }
        if !row_new(bytes, laid, &kept, i, &row, &mut index) {
            return false;
        }
        keep(&mut kept, i, &row, at - laid.elements_at);
        k = k + one_if_corner(&row, 0);
        at = at + 8 + 2 * wide(row[3]);
    }
    k == laid.vertices
}

// A row is added once: where an equal one stands already, that one is the element. Only this crate adds rows.
ghost use Rattle.space.specs.Found.{RowIndexed, RowAppended};
ghost use Rattle.space.specs.Ready.{AppendReady, AddRowReady};

use crate::chains::{find_row, join, key_of};
use crate::rows::put_row;
use crate::words::{ELEMENTS, WIDTH, wide};
use rules::{ElementId, Refusal, Reply};

// The row stored behind the last, and at the start of its chain.
fn append_row(counts: &mut [u16], elements: &mut [u16], index: &mut [u16], row: &[u16], n: usize)
    requires { AppendReady counts.old elements.old index.old row.now n }
    ensures { RowAppended counts.old elements.old row.now n counts.new elements.new index.new }
{
    let key = key_of(row, 0);
    put_row(elements, n * WIDTH, row);
    join(index, key, n);
    counts[1] = (n + 1) as u16;
}

// The element of an equal row, which is there already; or the row appended (9).
pub fn add_row(
    counts: &mut [u16],
    elements: &mut [u16],
    index: &mut [u16],
    row: &[u16],
) -> Reply<ElementId>
    requires { AddRowReady counts.old elements.old index.old row.now }
    ensures { RowIndexed counts.old elements.old row.now result counts.new elements.new index.new }
{
    let n = wide(counts[1]);
    if let Some(i) = find_row(elements, n, row, 0, index) {
        return Ok(i);
    }
    if ELEMENTS <= n {
        return Err(Refusal::ElementsFull);
    }
    append_row(counts, elements, index, row, n);
    Ok(ElementId(n))
}

// The parts of a line into the lent room, one after another: numbers, elements, counts.
ghost use Rattle.std.specs.Prelude.{◌+◌, ◌≤◌, [], ◌∷◌, ◌++◌, length, drop};
ghost use Rattle.rules.specs.Bytes.{decimal};
ghost use Rattle.rules.specs.Session.{spaced, place};
ghost use Rattle.lent_bytes.specs.Lent.{Put};
ghost use Rattle.session.specs.Ready.{PlaceReady, CountsEndReady};

use lent_bytes::decimal::digits;
use lent_bytes::write::word;
use rules::ElementId;
use space::words::wide;

// A space and the number; a u64 has 20 digits at most.
pub fn spaced_number(n: u64, room: &mut [u8], at: usize) -> usize
    requires { at + 21 ≤ length room.old }
    ensures { Put room.old at (32 ∷ decimal n) result room.new }
{
    room[at] = b' ';
    digits(n, room, at + 1)
}

// A space, and the element's number or -.
pub fn element(e: Option<ElementId>, room: &mut [u8], at: usize) -> usize
    requires { PlaceReady e room.old at }
    ensures { Put room.old at (place e) result room.new }
{
    match e {
        None => word(b" -", room, at),
        Some(id) => spaced_number(id.0 as u64, room, at),
    }
}

// How many elements, vertices and hyperplanes there are, and the end of the line.
pub fn counts_end(counts: &[u16], room: &mut [u8], at: usize) -> usize
    requires { CountsEndReady counts.now room.old at }
    ensures { Put room.old at (spaced (drop 1 counts.now) ++ 10 ∷ []) result room.new }
{
    let elements = spaced_number(wide(counts[1]) as u64, room, at);
    let vertices = spaced_number(wide(counts[2]) as u64, room, elements);
    let hyperplanes = spaced_number(wide(counts[3]) as u64, room, vertices);
    word(b"\n", room, hyperplanes)
}

// A session, record by record: the call that a record asks for, and its line into lent room.
#![tactic(auto)]

mod line;
mod record;
mod write;

ghost use Rattle.std.specs.Prelude.{◌≡◌};
ghost use Rattle.rules.specs.Held.{memory_of};
ghost use Rattle.session.specs.Written.{turn_reply, bad_reply};

use record::{cube_turn, cut_turn, is_cube, is_cut};

// Room that is enough for every line.
const LINE_ROOM: usize = 64;

// Of a record that is taken: how many bytes it has and its line, and whether a table stands then.
#[derive(Clone, Copy)]
pub struct Taken {
    pub record_bytes: usize,
    pub line_bytes: usize,
    pub stands: bool,
}

// Why a record is not taken: too little room for its line, or it is bad.
#[derive(Clone, Copy, Debug, PartialEq, Eq)]
pub enum Untaken {
    NoRoom,
    Bad,
}

// The record at the front of the input. `stands` says whether the memory has a table: before the first cube it has none.
pub fn turn(
    input: &[u8],
    stands: bool,
    counts: &mut [u16],
    points: &mut [f64],
    planes: &mut [f64],
    elements: &mut [u16],
    room: &mut [u8],
) -> Result<Taken, Untaken>
    ensures { (result, memory_of counts.new points.new planes.new elements.new, room.new)
        ≡ turn_reply stands (memory_of counts.old points.old planes.old elements.old) input.now room.old }
{
    if room.len() < LINE_ROOM {
        return Err(Untaken::NoRoom);
    }
    if is_cube(input) {
        return Ok(cube_turn(input, stands, counts, points, planes, elements, room));
    }
    if !stands {
        return Err(Untaken::Bad);
    }
    if !is_cut(counts, input) {
        return Err(Untaken::Bad);
    }
    Ok(cut_turn(input, counts, points, planes, elements, room))
}

// The line of a bad record, and its length: 0 in too little room.
pub fn bad_line(offset: u64, room: &mut [u8]) -> usize
    ensures { (result, room.new) ≡ bad_reply offset room.old }
{
    if room.len() < LINE_ROOM {
        return 0;
    }
    line::numbered(b"bad", offset, room)
}

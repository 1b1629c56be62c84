// Whole lines, at the front of the room.
ghost use Rattle.std.specs.Prelude.{[], ◌∷◌, ◌++◌, ◌≤◌, length, drop};
ghost use Rattle.rules.specs.Refusals.{refusal_number};
ghost use Rattle.rules.specs.Session.{cut_line, refused_line, spaced, text};
ghost use Rattle.lent_bytes.specs.Lent.{Put};
ghost use Rattle.session.specs.Written.{line_room};
ghost use Rattle.session.specs.Ready.{NumberedReady, CountedReady, SidesLineReady};

use crate::write;
use lent_bytes::write::word;
use rules::{ElementId, Refusal};

// A name and a number: `refused` and `bad`.
pub fn numbered(name: &[u8], n: u64, room: &mut [u8]) -> usize
    requires { NumberedReady name.now room.old }
    ensures { Put room.old 0 (name.now ++ spaced (n ∷ []) ++ 10 ∷ []) result room.new }
{
    let at = word(name, room, 0);
    let end = write::spaced_number(n, room, at);
    word(b"\n", room, end)
}

// A refusal is told by its number.
pub fn refused(refusal: Refusal, room: &mut [u8]) -> usize
    requires { line_room ≤ length room.old }
    ensures { Put room.old 0 (text (refused_line (refusal_number refusal))) result room.new }
{
    numbered(b"refused", u8::from(refusal) as u64, room)
}

// A name and the counts: `cube` and `flush`.
pub fn counted(name: &[u8], counts: &[u16], room: &mut [u8]) -> usize
    requires { CountedReady name.now counts.now room.old }
    ensures { Put room.old 0 (name.now ++ spaced (drop 1 counts.now) ++ 10 ∷ []) result room.new }
{
    let at = word(name, room, 0);
    write::counts_end(counts, room, at)
}

// The three places of an answer, and the counts.
pub fn cut(
    inside: Option<ElementId>,
    outside: Option<ElementId>,
    intersection: Option<ElementId>,
    counts: &[u16],
    room: &mut [u8],
) -> usize
    requires { SidesLineReady inside outside intersection counts.now room.old }
    ensures { Put room.old 0 (text (cut_line inside outside intersection (drop 1 counts.now))) result room.new }
{
    let at = word(b"cut", room, 0);
    let i = write::element(inside, room, at);
    let o = write::element(outside, room, i);
    let x = write::element(intersection, room, o);
    write::counts_end(counts, room, x)
}

// What a record asks for: a cube or a cut, its call, and the line of its reply.
ghost use Rattle.std.specs.Prelude.{◌+◌, ◌*◌, ◌≤◌, ◌≡◌, [], ◌∷◌, eqb, ltb, length, get_or, take, drop, if◌then◌else◌, Ok};
ghost use Rattle.rules.specs.Limits.{desk};
ghost use Rattle.rules.specs.Lists.{alike};
ghost use Rattle.rules.specs.Floats.{plus_zero};
ghost use Rattle.rules.specs.Held.{memory_of};
ghost use Rattle.rules.specs.Bytes.{float_at};
ghost use Rattle.rules.specs.Session.{text, is_cube, is_cut, cube_asked, divider_at, cut_asked, cube_turn, output_text, cut_text, cut_turn};
ghost use Rattle.lent_bytes.specs.Lent.{Put};
ghost use Rattle.space.specs.Numbers.{NumberBelow};
ghost use Rattle.session.specs.Written.{reply_of};
ghost use Rattle.session.specs.Ready.{ComponentReady, DividerReady, CubeTurnReady, AnswerLineReady, CutLineReady, CutTurnReady};

use crate::{Taken, line};
use lent_bytes::read;
use rules::{
    CutParams, ElementAnswer, ElementCutOutput, ElementId, Hyperplane, PolytopeFate, Reply,
};
use space::words::wide;

// Every mark's first byte is 43.
fn is_marked(input: &[u8], second: u8) -> bool
    requires { 2 ≤ length input.now }
    ensures { result ≡ alike eqb (take 2 input.now) (0x43 ∷ second ∷ []) }
{
    if input[0] != 0x43 {
        return false;
    }
    input[1] == second
}

pub fn is_cube(input: &[u8]) -> bool
    ensures { result ≡ is_cube input.now }
{
    if input.len() < 11 {
        return false;
    }
    is_marked(input, 0x55)
}

// The dimension of the table that stands.
fn dimension_of(counts: &[u16]) -> usize
    ensures { NumberBelow result (get_or counts.now 0 0) 65536 }
{
    if counts.len() == 0 {
        return 0;
    }
    wide(counts[0])
}

pub fn is_cut(counts: &[u16], input: &[u8]) -> bool
    ensures { result ≡ is_cut (get_or counts.now 0 0) input.now }
{
    let d = dimension_of(counts);
    if input.len() < 13 + 8 * d {
        return false;
    }
    if 3 < read::number::<1>(input, 2) {
        return false;
    }
    is_marked(input, 0x54)
}

// A component of the divider's normal: zero past the dimension.
fn component(input: &[u8], d: usize, axis: usize) -> f64
    requires { ComponentReady input.now d axis }
    ensures { result ≡ (if ltb axis d then float_at (5 + 8 * axis) input.now else plus_zero) }
{
    if axis < d {
        return read::float(input, 5 + 8 * axis);
    }
    0.0
}

// A table of more than four dimensions is not sound, so no cut looks at its divider.
fn divider_at(input: &[u8], d: usize) -> Hyperplane
    requires { DividerReady input.now d }
    ensures { d ≤ 4 → result ≡ divider_at desk d input.now }
{
    let n0 = component(input, d, 0);
    let n1 = component(input, d, 1);
    let n2 = component(input, d, 2);
    let n3 = component(input, d, 3);
    let normal = [n0, n1, n2, n3];
    let distance = read::float(input, 5 + 8 * d);
    Hyperplane { normal, distance }
}

pub fn cube_turn(
    input: &[u8],
    stands: bool,
    counts: &mut [u16],
    points: &mut [f64],
    planes: &mut [f64],
    elements: &mut [u16],
    room: &mut [u8],
) -> Taken
    requires { CubeTurnReady input.now room.old }
    ensures { (Ok result, memory_of counts.new points.new planes.new elements.new, room.new)
        ≡ reply_of (memory_of counts.old points.old planes.old elements.old) room.old
        (cube_turn stands (cube_asked desk (memory_of counts.old points.old planes.old elements.old) input.now)) }
{
    let d = read::number::<1>(input, 2);
    let radius = read::float(input, 3);
    match cube::with_primordial_cube_radius(d, radius, counts, points, planes, elements) {
        Ok(()) => Taken {
            record_bytes: 11,
            line_bytes: line::counted(b"cube", counts, room),
            stands: true,
        },
        Err(refusal) => Taken {
            record_bytes: 11,
            line_bytes: line::refused(refusal, room),
            stands,
        },
    }
}

fn answer_line(answer: ElementCutOutput, counts: &[u16], room: &mut [u8]) -> usize
    requires { AnswerLineReady answer counts.now room.old }
    ensures { Put room.old 0 (text (output_text answer (drop 1 counts.now))) result room.new }
{
    match answer {
        ElementCutOutput::Flush => line::counted(b"flush", counts, room),
        ElementCutOutput::NonFlush {
            inside,
            outside,
            intersection,
        } => line::cut(inside, outside, intersection, counts, room),
    }
}

// The line of a cut's reply.
fn cut_line(reply: Reply<ElementAnswer>, counts: &[u16], room: &mut [u8]) -> usize
    requires { CutLineReady reply counts.now room.old }
    ensures { Put room.old 0 (text (cut_text reply (drop 1 counts.now))) result room.new }
{
    match reply {
        Err(refusal) => line::refused(refusal, room),
        Ok(answer) => answer_line(answer.output, counts, room),
    }
}

pub fn cut_turn(
    input: &[u8],
    counts: &mut [u16],
    points: &mut [f64],
    planes: &mut [f64],
    elements: &mut [u16],
    room: &mut [u8],
) -> Taken
    requires { CutTurnReady counts.old input.now room.old }
    ensures { (Ok result, memory_of counts.new points.new planes.new elements.new, room.new)
        ≡ reply_of (memory_of counts.old points.old planes.old elements.old) room.old
        (cut_turn (get_or counts.old 0 0) (cut_asked desk (memory_of counts.old points.old planes.old elements.old) input.now)) }
{
    let d = dimension_of(counts);
    let divider = divider_at(input, d);
    let kept = read::number::<1>(input, 2);
    let inside = PolytopeFate::from(kept % 2 == 1);
    let outside = PolytopeFate::from(kept / 2 == 1);
    let root = ElementId(read::number::<2>(input, 3) as usize);
    let params = CutParams {
        divider,
        inside,
        outside,
    };
    let reply = cut::cut(counts, points, planes, elements, params, root);
    let line = cut_line(reply, counts, room);
    Taken {
        record_bytes: 13 + 8 * d,
        line_bytes: line,
        stands: true,
    }
}

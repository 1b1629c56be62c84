// What a cut has answered so far, one word of three fields an element. The word of an element that was not asked is 0; the fields of flush are 1, 0, 0.
ghost use Rattle.std.specs.Prelude.{◌<◌, ◌≡◌};
ghost use Rattle.gathered.specs.Sets.{InRoom};
ghost use Rattle.space.specs.Numbers.{NumberBelow};
ghost use Rattle.cut.specs.Known.{field_size, field_of, some_of, known_at, output_at, fields_at, with_answer, FieldsReady, AnswerReady, KeepReady, ReplyKept};

use rules::{ElementCutOutput, ElementId, Reply};
use space::words::ELEMENTS;

// A word for each element: an array of answers as an enum takes 28 KB of the stack, these words take 2, and a cut has 8.
pub const KNOWN: usize = ELEMENTS;

// How many numbers a field of a word can be.
const FIELD: u32 = 1024;

// None is 1, and an element is two above its number, so that 0 tells flush, and what was not asked.
fn field_of(x: Option<ElementId>) -> u32
    requires { InRoom x }
    ensures { NumberBelow result (field_of x) field_size }
{
    match x {
        None => 1,
        Some(e) => e.0 as u32 + 2,
    }
}

fn some_of(field: u32) -> Option<ElementId>
    ensures { result ≡ some_of field }
{
    if field < 2 {
        return None;
    }
    let number = (field - 2) as usize;
    Some(ElementId(number))
}

// Whether an element was asked before.
pub fn is_known(known: &[u32; KNOWN], e: ElementId) -> bool
    requires { e.0 < 512 }
    ensures { result ≡ known_at known.now e.0 }
{
    let at = e.0;
    0 < known[at]
}

// What the word of an element that was asked says.
pub fn output_at(known: &[u32; KNOWN], e: ElementId) -> ElementCutOutput
    requires { e.0 < 512 }
    ensures { result ≡ output_at known.now e.0 }
{
    let at = e.0;
    let word = known[at];
    let a = word % FIELD;
    let b = word / FIELD % FIELD;
    let c = word / FIELD / FIELD;
    if b == 0 {
        return ElementCutOutput::Flush;
    }
    let inside = some_of(a);
    let outside = some_of(b);
    let intersection = some_of(c);
    ElementCutOutput::NonFlush {
        inside,
        outside,
        intersection,
    }
}

fn put_fields(known: &mut [u32; KNOWN], e: ElementId, a: u32, b: u32, c: u32)
    requires { FieldsReady e.0 a b c }
    ensures { known.new ≡ fields_at known.old e.0 a b c }
{
    let at = e.0;
    known[at] = (c * FIELD + b) * FIELD + a;
}

// Its word is written.
fn keep_answer(known: &mut [u32; KNOWN], e: ElementId, answer: ElementCutOutput)
    requires { AnswerReady e.0 answer }
    ensures { known.new ≡ with_answer known.old e.0 answer }
{
    match answer {
        ElementCutOutput::Flush => put_fields(known, e, 1, 0, 0),
        ElementCutOutput::NonFlush {
            inside,
            outside,
            intersection,
        } => {
            let a = field_of(inside);
            let b = field_of(outside);
            let c = field_of(intersection);
            put_fields(known, e, a, b, c);
        }
    }
}

// An answer is kept, and a refusal handed on.
pub fn keep(known: &mut [u32; KNOWN], e: ElementId, reply: Reply<ElementCutOutput>) -> Reply<()>
    requires { KeepReady e.0 reply }
    ensures { ReplyKept known.old e.0 reply result known.new }
{
    keep_answer(known, e, reply?);
    Ok(())
}

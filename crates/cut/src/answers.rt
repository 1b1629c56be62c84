// An answer as one number, as a host is given it and as it stands in a room of answers.
ghost use Rattle.std.specs.Prelude.{◌≡◌};
ghost use Rattle.rules.specs.Limits.{desk};
ghost use Rattle.rules.specs.Promises.{OneBelow, NamesBelow};
ghost use Rattle.rules.specs.Replies.{element_word, warning_word, output_word};
ghost use Rattle.space.specs.Numbers.{NumberBelow};

use rules::{ElementCutOutput, ElementId};

fn element_word(e: Option<ElementId>) -> u64
    requires { OneBelow desk.elements e }
    ensures { NumberBelow result (element_word e) 65536 }
{
    match e {
        None => 0xffff,
        Some(id) => id.0 as u64,
    }
}

fn warning_word(warning: bool) -> u64
    ensures { NumberBelow result (warning_word warning) 0x201 }
{
    if warning {
        return 0x200;
    }
    0
}

// The warning's bit, with flush, or with three numbers of 16 bits.
pub fn output_word(a: ElementCutOutput, warning: bool) -> u64
    requires { NamesBelow desk.elements a }
    ensures { result ≡ output_word a warning }
{
    let w = warning_word(warning);
    match a {
        ElementCutOutput::Flush => w + 0x100,
        ElementCutOutput::NonFlush {
            inside,
            outside,
            intersection,
        } => {
            let i = element_word(inside);
            let o = element_word(outside);
            let x = element_word(intersection);
            w + i * 0x10000 + o * 0x1_0000_0000 + x * 0x1_0000_0000_0000
        }
    }
}

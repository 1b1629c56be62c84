// Numbers of a host as the engine's values, and replies as one number.
ghost use Rattle.std.specs.Prelude.{◌≤◌, ◌≡◌};
ghost use Rattle.rules.specs.Refusals.{refusal_number, reply_number};
ghost use Rattle.rules.specs.CutLists.{most_cuts, answers_written};
ghost use Rattle.rules.specs.Touch.{touch_value};
ghost use Rattle.space.specs.Numbers.{NumberBelow};
ghost use Rattle.desk.specs.Words.{written_word, size_word, SizeFits, touch_word, CountFits, fate_by, rank_byte};

use rules::{CutListReply, PolytopeFate, Refusal, Reply, Touch, Touched};

// 0 removes a side, and any other number keeps it.
pub fn fate(kept: u32) -> PolytopeFate
    ensures { result ≡ fate_by kept }
{
    PolytopeFate::from(kept != 0)
}

pub fn refused(refusal: Refusal) -> u32
    ensures { NumberBelow result (refusal_number refusal) 0x100 }
{
    u8::from(refusal) as u32
}

// The number of a reply that has nothing else to tell.
pub fn number(reply: Reply<()>) -> u32
    ensures { result ≡ reply_number reply }
{
    match reply {
        Ok(()) => 0,
        Err(refusal) => refused(refusal),
    }
}

// A rank that no byte holds is nobody's, as 255 is.
pub fn rank_byte(rank: u32) -> u8
    ensures { result ≡ rank_byte rank }
{
    if rank > 255 {
        return 255;
    }
    rank as u8
}

// The reply's number, and how many answers were written above its eight bits.
pub fn written_word(r: CutListReply) -> u32
    requires { answers_written r ≤ most_cuts }
    ensures { result ≡ written_word r }
{
    match r {
        CutListReply::Refused(refusal) => refused(refusal),
        CutListReply::Stopped { refusal, position } => refused(refusal) + position as u32 * 0x100,
        CutListReply::Answered(n) => n as u32 * 0x100,
    }
}

// The reply's number, or the size of the list above its eight bits.
pub fn list_word(r: Reply<usize>) -> u32
    requires { SizeFits r }
    ensures { result ≡ size_word r }
{
    match r {
        Err(refusal) => refused(refusal),
        Ok(n) => n as u32 * 0x100,
    }
}

fn touch_value(answer: Touch) -> u32
    ensures { NumberBelow result (touch_value answer) 4 }
{
    match answer {
        Touch::AllOn => 0,
        Touch::InsideOrOn => 1,
        Touch::OutsideOrOn => 2,
        Touch::Both => 3,
    }
}

pub fn touch_word(reply: Reply<Touched>) -> u32
    requires { CountFits reply }
    ensures { result ≡ touch_word reply }
{
    match reply {
        Err(refusal) => refused(refusal),
        Ok(touched) => touch_value(touched.answer) * 0x100 + touched.tested as u32 * 0x10000,
    }
}

// Words of a line, as the session program has them.
ghost use Rattle.std.specs.Prelude.{◌≤◌, length};

use rules::{ElementAnswer, ElementCutOutput, ElementId, Refusal, Reply, Side, SideTest};
use space::words::COUNTS;
use std::io::{self, Write};

pub fn text(rt: &HostRuntime, words: &[u8]) -> io::Result<()> {
    rt.stdout().write_all(words)
}

pub fn number(rt: &HostRuntime, n: u64) -> io::Result<()> {
    print!(rt; " {n}")
}

pub fn line_end(rt: &HostRuntime) -> io::Result<()> {
    text(rt, b"\n")
}

// How many elements, vertices and hyperplanes are in use.
pub fn counts(rt: &HostRuntime, counts: [u16; COUNTS]) -> io::Result<()> {
    let [_, elements, vertices, planes] = counts;
    println!(rt; " {elements} {vertices} {planes}")
}

fn element(rt: &HostRuntime, e: Option<ElementId>) -> io::Result<()> {
    match e {
        None => text(rt, b" -")?,
        Some(id) => number(rt, id.0 as u64)?,
    }
    Ok(())
}

fn output(rt: &HostRuntime, a: ElementCutOutput) -> io::Result<()> {
    match a {
        ElementCutOutput::Flush => text(rt, b"flush")?,
        ElementCutOutput::NonFlush {
            inside,
            outside,
            intersection,
        } => {
            text(rt, b"cut")?;
            element(rt, inside)?;
            element(rt, outside)?;
            element(rt, intersection)?;
        }
    }
    Ok(())
}

fn refused(rt: &HostRuntime, refusal: Refusal) -> io::Result<()> {
    text(rt, b"refused")?;
    number(rt, u64::from(u8::from(refusal)))
}

pub fn reply(rt: &HostRuntime, r: Reply<ElementAnswer>) -> io::Result<()> {
    match r {
        Err(refusal) => refused(rt, refusal)?,
        Ok(answer) => {
            output(rt, answer.output)?;
            if answer.warning {
                text(rt, b" close")?;
            }
        }
    }
    Ok(())
}

pub fn side(rt: &HostRuntime, t: SideTest) -> io::Result<()> {
    let s = t.side;
    match s {
        Side::Inside => text(rt, b" inside")?,
        Side::On => text(rt, b" on")?,
        Side::Outside => text(rt, b" outside")?,
    }
    Ok(())
}

// The front of a list.
fn list(rt: &HostRuntime, words: &[u16], n: usize) -> io::Result<()>
    requires { n ≤ length words.now }
{
    for word in &words[..n] {
        number(rt, u64::from(*word))?;
    }
    Ok(())
}

// The numbers that a question gave.
pub fn list_reply(rt: &HostRuntime, r: Reply<usize>, words: &[u16]) -> io::Result<()> {
    match r {
        Err(refusal) => {
            text(rt, b" ")?;
            refused(rt, refusal)?;
        }
        Ok(n) => {
            if n <= words.len() {
                list(rt, words, n)?;
            }
        }
    }
    line_end(rt)
}

// The cases of each table, and what is done and printed for each.
use crate::memory::{Lengths, Memory, Run};
use crate::table::Base;
use crate::word::sum;
use hypermath::patterns::float_of;
use rules::Reply;
use std::io;

pub trait Case {
    // The case's line, after what is done for it in the memory.
    fn print(&self, rt: &HostRuntime, memory: &mut Memory) -> io::Result<()>;
}

pub fn print_all<C: Case>(rt: &HostRuntime, cases: &[C], memory: &mut Memory) -> io::Result<()> {
    for case in cases {
        case.print(rt, memory)?;
    }
    Ok(())
}

// The number of a reply.
fn number(reply: Reply<()>) -> u8 {
    match reply {
        Ok(()) => 0,
        Err(refusal) => u8::from(refusal),
    }
}

// What memory holds, and the lengths lent.
pub struct SoundCase {
    pub name: &'static str,
    pub base: Base,
    pub runs: &'static [Run],
    pub lengths: Lengths,
}

impl Case for SoundCase {
    // Whether it is sound.
    fn print(&self, rt: &HostRuntime, memory: &mut Memory) -> io::Result<()> {
        memory.hold(self.base.held());
        memory.put_all(self.runs);
        println!(rt;
            "sound {} {}",
            self.name,
            number(memory.soundness(self.lengths))
        )
    }
}

// What memory holds, the lengths lent, and the pattern of a radius.
pub struct CubeCase {
    pub name: &'static str,
    pub base: Base,
    pub lengths: Lengths,
    pub dimension: u64,
    pub radius: u64,
}

impl Case for CubeCase {
    // A cube put over the memory: the reply, whether what is there then is sound, and a sum of each slice.
    fn print(&self, rt: &HostRuntime, memory: &mut Memory) -> io::Result<()> {
        memory.hold(self.base.held());
        let reply = memory.put_cube(self.lengths, self.dimension, float_of(self.radius));
        println!(rt;
            "cube {} {} {} {:08x} {:08x} {:08x} {:08x}",
            self.name,
            number(reply),
            number(memory.soundness(self.lengths)),
            sum(&memory.counts),
            sum(&memory.points),
            sum(&memory.planes),
            sum(&memory.elements)
        )
    }
}

// The block that was read, and what is left of it.
ghost use Rattle.std.specs.Prelude.{◌≤◌};
ghost use Rattle.cutlist.specs.declared.input.TheConstants.{BLOCK};
ghost use Rattle.cutlist.specs.Kept.{Kept};

use std::io::{self, Read};

// How many bytes are read or written at a time.
pub const BLOCK: usize = 65536;

// The longest record, a cut in four dimensions.
const RECORD: usize = 45;

// What is left lies in the block, and begins at `offset` in the session.
#[derive(Drop)]
pub struct Input {
    bytes: [u8; BLOCK],
    from: usize,
    end: usize,
    pub offset: u64,
    is_over: bool,
    ghost order: { from ≤ end },
    ghost read: { end ≤ BLOCK },
}

impl Input {
    pub fn new() -> Self {
        Input {
            bytes: [0; BLOCK],
            from: 0,
            end: 0,
            offset: 0,
            is_over: false,
        }
    }

    pub fn rest(&self) -> &[u8] {
        &self.bytes[self.from..self.end]
    }

    // Whether there is a whole record, or the last one.
    pub fn has_record(&self) -> bool {
        let rest = self.end - self.from;
        RECORD <= rest || self.is_over && 0 < rest
    }

    // Whether nothing is left, and nothing to come.
    pub fn is_done(&self) -> bool {
        self.is_over && self.from == self.end
    }

    // The rest of the block goes to its front, and behind it what there is to read; nothing is the end of the session.
    pub fn fill(&mut self, rt: &HostRuntime) -> io::Result<()> {
        let rest = self.end - self.from;
        if RECORD <= rest || self.is_over {
            return Ok(());
        }
        self.bytes.copy_within(self.from..self.end, 0);
        let n = rt.stdin().read(&mut self.bytes[rest..])?;
        self.from = 0;
        self.end = rest + n;
        self.is_over = n == 0;
        Ok(())
    }

    // A record was taken: the library reads no more than it was lent, and what was read stays.
    pub fn take(&mut self, record: usize)
        ensures { Kept self.old.bytes self.old.end self.new.bytes self.new.end }
    {
        let read = record.min(self.end - self.from);
        self.from += read;
        self.offset = self.offset.wrapping_add(read as u64);
    }
}

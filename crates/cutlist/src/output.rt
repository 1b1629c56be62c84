// The block of lines that is to be written.
ghost use Rattle.std.specs.Prelude.{◌≡◌, ◌≤◌, IfOk};
ghost use Rattle.cutlist.specs.declared.input.TheConstants.{BLOCK};

use crate::input::{BLOCK, Input};
use crate::table::Table;
use session::{Taken, Untaken};
use std::io::{self, Write};

// Room for every line.
const LINE: usize = 64;

// The lines so far lie in the block.
#[derive(Drop)]
pub struct Output {
    bytes: [u8; BLOCK],
    pub filled: usize,
    ghost fits: { filled ≤ BLOCK },
}

impl Output {
    pub fn new() -> Self
        ensures { result.filled ≡ 0 }
    {
        Output {
            bytes: [0; BLOCK],
            filled: 0,
        }
    }

    pub fn has_room(&self) -> bool {
        LINE <= BLOCK - self.filled
    }

    // What becomes of the record at the front of the input; its line goes behind those so far.
    pub fn turn(&mut self, input: &Input, table: &mut Table) -> Result<Taken, Untaken> {
        let start = self.filled;
        table.turn(input.rest(), &mut self.bytes[start..])
    }

    // A line was written: the library writes no more than it was lent.
    pub fn put(&mut self, line: usize) {
        let written = line.min(BLOCK - self.filled);
        self.filled += written;
    }

    // The line of a bad record.
    pub fn put_bad(&mut self, offset: u64) {
        let start = self.filled;
        let line = session::bad_line(offset, &mut self.bytes[start..]);
        self.put(line);
    }

    // The lines so far are written out.
    pub fn flush(&mut self, rt: &HostRuntime) -> io::Result<()>
        ensures { IfOk result (λ _. self.new.filled ≡ 0) }
    {
        rt.stdout().write_all(&self.bytes[..self.filled])?;
        self.filled = 0;
        Ok(())
    }
}

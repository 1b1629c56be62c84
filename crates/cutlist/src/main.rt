// Reads a session from standard input and writes a line for each record: blocks in, blocks out, and in memory no more
// than one of each beside the table. What a record's line is, crate `session` says.
#![tactic(auto)]

mod input;
mod output;
mod table;

ghost use Rattle.std.specs.Prelude.{◌≡◌, IfOk};
ghost use Rattle.cutlist.specs.Kept.{Kept};

use input::{BLOCK, Input};
use output::Output;
use session::Untaken;
use std::io;
use table::Table;

// Where the program is in its session.
#[derive(Drop)]
struct Program {
    input: Input,
    output: Output,
    table: Table,
    is_stopped: bool,
}

impl Program {
    fn new() -> Self
        ensures { result.output.filled ≡ 0 }
    {
        Program {
            input: Input::new(),
            output: Output::new(),
            table: Table::new(),
            is_stopped: false,
        }
    }

    // Whether there is a whole record, or the last one, and room for its line.
    fn is_ready(&self) -> bool {
        !self.is_stopped && self.output.has_room() && self.input.has_record()
    }

    fn one(&mut self)
        ensures { Kept self.old.input.bytes self.old.input.end self.new.input.bytes self.new.input.end }
    {
        match self.output.turn(&self.input, &mut self.table) {
            Err(Untaken::NoRoom) => {},
            Err(Untaken::Bad) => {
                self.output.put_bad(self.input.offset);
                self.is_stopped = true;
            },
            Ok(taken) => {
                self.input.take(taken.record_bytes);
                self.output.put(taken.line_bytes);
                self.table.stands = taken.stands;
            },
        }
    }

    // Record after record, as long as there is one.
    fn records(&mut self)
        ensures { Kept self.old.input.bytes self.old.input.end self.new.input.bytes self.new.input.end }
    {
        for _ in 0..BLOCK {
            if !self.is_ready() {
                return;
            }
            self.one();
        }
    }

    // One block: read, gone through, and written out. Where nothing is left, the program stops.
    fn block(&mut self, rt: &HostRuntime) -> io::Result<()>
        ensures { IfOk result (λ _. self.new.output.filled ≡ 0) }
    {
        self.input.fill(rt)?;
        self.records();
        self.output.flush(rt)?;
        self.is_stopped = self.is_stopped || self.input.is_done();
        Ok(())
    }
}

// A proved loop has to end, and nothing says that a session does: no run uses up this many blocks.
fn main(rt: HostRuntime) -> io::Result<()> {
    let mut program = Program::new();
    for _ in 0..u64::MAX {
        if program.is_stopped {
            return Ok(());
        }
        program.block(&rt)?;
    }
    Ok(())
}

// Runs the soundness test over damaged and strange memories and the cube over old ones, and prints a line for each
// case. tests/tables/make_expected.py writes the cases, and works out from document 01 what is to be printed.
#![tactic(auto)]

mod cases;
mod memory;
mod table;
mod word;

use memory::Memory;
use std::io;

fn main(rt: HostRuntime) -> io::Result<()> {
    let mut memory = Memory::new();
    cases::print_all(&rt, &table::NUMBERS, &mut memory)?;
    cases::print_all(&rt, &table::CORNERS, &mut memory)?;
    cases::print_all(&rt, &table::BOUNDARIES, &mut memory)?;
    cases::print_all(&rt, &table::HYPERPLANES, &mut memory)?;
    cases::print_all(&rt, &table::UNUSED, &mut memory)?;
    cases::print_all(&rt, &table::SEVERAL, &mut memory)?;
    cases::print_all(&rt, &table::SOUND, &mut memory)?;
    cases::print_all(&rt, &table::LENGTHS, &mut memory)?;
    cases::print_all(&rt, &table::CUBES, &mut memory)
}

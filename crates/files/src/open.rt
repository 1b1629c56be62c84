// Document 02, order 1: a file opened as the table that it says. 13 is the layout alone and comes first, then 3; refused, the memory is as it came.
ghost use Rattle.std.specs.Prelude.{◌≡◌};
ghost use Rattle.rules.specs.Limits.{desk};
ghost use Rattle.rules.specs.Held.{memory_of};
ghost use Rattle.rules.specs.Files.{open_reply};

use crate::judge::table_sound;
use crate::layout::laid_out;
use crate::put::put;
use rules::{Refusal, Reply};
use space::memory::Memory;
use space::words::right_size;

// The file is judged on its bytes, so nothing is written until it is taken.
pub fn open(
    counts: &mut [u16],
    points: &mut [f64],
    planes: &mut [f64],
    elements: &mut [u16],
    file: &[u8],
) -> Reply<()>
    ensures { (result, memory_of counts.new points.new planes.new elements.new) ≡
        open_reply desk file.now (memory_of counts.old points.old planes.old elements.old) }
{
    let Some(laid) = laid_out(file) else {
        return Err(Refusal::Layout);
    };
    let memory = Memory {
        counts,
        points,
        planes,
        elements,
    };
    if !right_size(memory) {
        return Err(Refusal::NotSound);
    }
    if !table_sound(file, laid) {
        return Err(Refusal::NotSound);
    }
    put(file, laid, counts, points, planes, elements);
    Ok(())
}

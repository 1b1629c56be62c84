// Whether a row is new: it is looked for among the earlier ones, along the chain of its key, and then joins it.
ghost use Rattle.soundness.specs.Tests.{NewReady, NewTested};

use rules::ElementId;
use space::chains::{find_row, join, key_of};
use space::words::WIDTH;

// The row of e is equal to no earlier one, and joins the index then.
pub fn row_new(elements: &[u16], e: ElementId, index: &mut [u16]) -> bool
    requires { NewReady elements.now e.0 index.old }
    ensures { NewTested elements.now e.0 index.old result index.new }
{
    let at = e.0 * WIDTH;
    match find_row(elements, e.0, elements, at, index) {
        Some(_) => false,
        None => {
            let key = key_of(elements, at);
            join(index, key, e.0);
            true
        }
    }
}

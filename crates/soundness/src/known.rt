// What the test of a row knows of the elements before it: their ranks, and the two ends of edges. The memory has them in its rows; of a file they are kept in a smaller array.
ghost use Rattle.std.specs.Prelude.{◌+◌, ◌*◌, get_or};
ghost use Rattle.space.specs.Numbers.{row_width, NumberBelow};
ghost use Rattle.space.specs.Closed.{EndsMet, EndsJoined};
ghost use Rattle.soundness.specs.Known.{known_rows, ElementKnown, EndKnown, EndsKnown, PathsKnown};

use crate::row::Spacing;
use rules::ElementId;
use space::closed::{Joined, join_paths, meet_both};
use space::words::{ELEMENTS, wide};

pub fn rank_known(earlier: &[u16], spacing: Spacing, x: ElementId) -> usize
    requires { ElementKnown earlier.now spacing x.0 }
    ensures { NumberBelow result (get_or (known_rows earlier.now spacing) (x.0 * row_width) 0) 65536 }
{
    let at = x.0 * spacing.width;
    wide(earlier[at])
}

// The first or the second end of an edge.
fn end_known(earlier: &[u16], spacing: Spacing, x: ElementId, i: usize) -> usize
    requires { EndKnown earlier.now spacing x.0 i }
    ensures { NumberBelow result (get_or (known_rows earlier.now spacing) (x.0 * row_width + (4 + i)) 0) 65536 }
{
    let at = x.0 * spacing.width;
    let from = at + spacing.ends;
    wide(earlier[from + i])
}

// Both ends of an edge are met: how many of them for the second time.
pub fn meet_ends(
    earlier: &[u16],
    spacing: Spacing,
    x: ElementId,
    met: &mut [u32; ELEMENTS],
    stamp: u32,
) -> usize
    requires { EndsKnown earlier.now spacing x.0 stamp }
    ensures { EndsMet stamp (known_rows earlier.now spacing) met.old x.0 result met.new }
{
    let a = end_known(earlier, spacing, x, 0);
    let b = end_known(earlier, spacing, x, 1);
    meet_both(a, b, met, stamp)
}

// An edge joins the paths that end in its ends: `join_paths` says what is answered.
pub fn join_ends(
    earlier: &[u16],
    spacing: Spacing,
    x: ElementId,
    paths: &mut [u32; ELEMENTS],
    stamp: u32,
) -> Joined
    requires { PathsKnown earlier.now spacing x.0 stamp paths.old }
    ensures { EndsJoined stamp (known_rows earlier.now spacing) paths.old x.0 result paths.new }
{
    let a = end_known(earlier, spacing, x, 0);
    let b = end_known(earlier, spacing, x, 1);
    join_paths(a, b, paths, stamp)
}

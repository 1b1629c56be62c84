// Whether the table that a file says is sound (3), told from its bytes: no second table lies on the stack. The layout was tested before.
ghost use Rattle.std.specs.Prelude.{◌<◌};
ghost use Rattle.rules.specs.Limits.{desk};
ghost use Rattle.rules.specs.Sound.{sound};
ghost use Rattle.files.specs.Judged.{Says, SaysFitting, Judged, VertexJudged, PlaneJudged, widths_fit, vertices_sound, hyperplanes_sound};

use crate::entries::{plane_at, point_at};
use crate::layout::{HEADER, Laid};
use crate::rows::rows_judged;
use lent_bytes::read;
use soundness::floats::{coordinates_fit, hyperplane_sound};
use soundness::sound::counts_fit;
use space::words::BOUNDARY;

// Every boundary has place in a row of the room. A loop: where an element's record stands only those before it tell.
fn widths_fit(bytes: &[u8], laid: Laid) -> bool
    requires { Says bytes.now laid }
    ensures { Judged bytes.now laid widths_fit result }
{
    let mut at = laid.elements_at;
    for e in 0..laid.elements {
        let n = read::number::<2>(bytes, at + 6) as usize;
        if BOUNDARY < n {
            return false;
        }
        at = at + 8 + 2 * n;
    }
    true
}

fn vertex_sound(bytes: &[u8], laid: Laid, v: usize) -> bool
    requires says { SaysFitting bytes.now laid }
    requires there { v < laid.vertices }
    ensures { VertexJudged bytes.now laid v result }
{
    let d = laid.dimension;
    let p = point_at(bytes, HEADER + v * (2 + 8 * d), d);
    coordinates_fit(&p, 0, d)
}

fn vertices_sound(bytes: &[u8], laid: Laid) -> bool
    requires { SaysFitting bytes.now laid }
    ensures { Judged bytes.now laid vertices_sound result }
{
    (0..laid.vertices).all(|v| vertex_sound(bytes, laid, v))
}

fn plane_sound(bytes: &[u8], laid: Laid, h: usize) -> bool
    requires says { SaysFitting bytes.now laid }
    requires there { h < laid.hyperplanes }
    ensures { PlaneJudged bytes.now laid h result }
{
    let d = laid.dimension;
    let plane = plane_at(bytes, laid.planes_at + h * (10 + 8 * d), d);
    hyperplane_sound(plane, d)
}

fn hyperplanes_sound(bytes: &[u8], laid: Laid) -> bool
    requires { SaysFitting bytes.now laid }
    ensures { Judged bytes.now laid hyperplanes_sound result }
{
    (0..laid.hyperplanes).all(|h| plane_sound(bytes, laid, h))
}

// The counts and the boundaries first: only a table that fits the room has rows to test.
pub fn table_sound(bytes: &[u8], laid: Laid) -> bool
    requires { Says bytes.now laid }
    ensures { Judged bytes.now laid (sound desk) result }
{
    if !counts_fit(
        laid.dimension,
        laid.elements,
        laid.vertices,
        laid.hyperplanes,
    ) {
        return false;
    }
    if !widths_fit(bytes, laid) {
        return false;
    }
    if !vertices_sound(bytes, laid) {
        return false;
    }
    if !hyperplanes_sound(bytes, laid) {
        return false;
    }
    rows_judged(bytes, laid)
}

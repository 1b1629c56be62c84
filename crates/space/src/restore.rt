// A refused cut gives all memory back.
ghost use Rattle.space.specs.Ready.{RestoreReady};
ghost use Rattle.space.specs.Restored.{Restored};

use crate::words::{AXES, PLANE_WIDTH, WIDTH, wide};

// Elements, vertices and hyperplanes numbered from e, v and h on are taken away.
pub fn restore(
    counts: &mut [u16],
    points: &mut [f64],
    planes: &mut [f64],
    elements: &mut [u16],
    e: u16,
    v: u16,
    h: u16,
)
    requires { RestoreReady counts.old points.old planes.old elements.old e v h }
    ensures { Restored counts.old points.old planes.old elements.old e v h counts.new points.new planes.new elements.new }
{
    let ne = wide(counts[1]);
    let nv = wide(counts[2]);
    let nh = wide(counts[3]);
    let ae = e as usize * WIDTH;
    let av = v as usize * AXES;
    let ah = h as usize * PLANE_WIDTH;
    elements[ae..ne * WIDTH].fill(0);
    points[av..nv * AXES].fill(0.0);
    planes[ah..nh * PLANE_WIDTH].fill(0.0);
    counts[1] = e;
    counts[2] = v;
    counts[3] = h;
}

// The triangles of a face: a fan from the first corner of its walk.
ghost use Rattle.std.specs.Prelude.{map};
ghost use Rattle.rules.specs.Lists.{joined};
ghost use Rattle.rules.specs.Print.{corner_bytes, triangle_bytes};
ghost use Rattle.lent_bytes.specs.Lent.{Put};
ghost use Rattle.print.specs.Pieces.{point_in, fan_in, face_in, CornerReady, TriangleReady, FanReady, FaceReady};

use lent_bytes::write;
use rules::{ElementId, VertexId};
use space::rows;
use space::words::{AXES, BOUNDARY, wide};
use walk::walk_face;

// A walk has two numbers for each edge of a face.
const WALK: usize = 2 * BOUNDARY;

fn corner(points: &[f64], v: VertexId, room: &mut [u8], at: usize) -> usize
    requires { CornerReady points.now v.0 room.old at }
    ensures { Put room.old at (corner_bytes (point_in points.now v.0)) result room.new }
{
    let from = v.0 * AXES;
    write::corner(points, from, from + 3, room, at)
}

// Behind a normal of zeros, before attribute 0.
fn triangle(
    points: &[f64],
    a: VertexId,
    b: VertexId,
    c: VertexId,
    room: &mut [u8],
    at: usize,
) -> usize
    requires { TriangleReady points.now a.0 b.0 c.0 room.old at }
    ensures { Put room.old at (triangle_bytes (point_in points.now) (a.0, b.0, c.0)) result room.new }
{
    let normal = write::number(12, 0, room, at);
    let first = corner(points, a, room, normal);
    let second = corner(points, b, room, first);
    let third = corner(points, c, room, second);
    write::number(2, 0, room, third)
}

// Of the numbers of a walk of n edges: all but the first edge and the last.
fn fan(points: &[f64], list: &[u16; WALK], n: usize, room: &mut [u8], at: usize) -> usize
    requires { FanReady points.now list.now n room.old at }
    ensures { Put room.old at (joined (map (triangle_bytes (point_in points.now)) (fan_in list.now n))) result room.new }
{
    let first = VertexId(wide(list[0]));
    let mut end = at;
    // The edge is counted, since its two places in the list are twice its number.
    for k in 1..n - 1 {
        let from = VertexId(wide(list[2 * k]));
        let to = VertexId(wide(list[2 * k + 1]));
        end = triangle(points, first, from, to, room, end);
    }
    end
}

pub fn face(points: &[f64], elements: &[u16], f: ElementId, room: &mut [u8], at: usize) -> usize
    requires { FaceReady points.now elements.now f.0 room.old at }
    ensures { Put room.old at (face_in points.now elements.now f.0) result room.new }
{
    let mut list = [0u16; WALK];
    let n = rows::size_of(elements, f);
    walk_face(elements, f, &mut list);
    fan(points, &list, n, room, at)
}

// Rules 3 and 4: the cut of a vertex, and of an edge by its two ends.
#![tactic(auto)]

ghost use Rattle.std.specs.Prelude.{◌+◌, ◌*◌, ◌≡◌, get_or};
ghost use Rattle.rules.specs.Floats.{side_of};
ghost use Rattle.rules.specs.Cut.{corner_output};
ghost use Rattle.space.specs.Shared.{stored_point};
ghost use Rattle.ends.specs.Ends.{PointAsked, CornerReady, CornerCut, EndsReady, EndsRead, EndsAsked, EndsGathered, CrossedAsked, CrossedLeft};
ghost use Rattle.ends.specs.Elements.{LowAsked, LowLeft};

use gathered::answer;
use gathered::sets::Room;
use rules::{Cutter, ElementCutOutput, ElementId, Reply, Side, VertexId};
use space::words::wide;
use space::{memo, rows};

// The ends a and b of an edge, a the lower-numbered, at p and q.
#[derive(Clone, Copy)]
struct EdgeEnds {
    a: ElementId,
    b: ElementId,
    p: [f64; 4],
    q: [f64; 4],
}

// The point of a vertex element, by its vertex number.
fn corner_point(points: &[f64], elements: &[u16], e: ElementId) -> [f64; 4]
    requires { PointAsked points.now elements.now e.0 }
    ensures { result ≡ stored_point points.now (get_or elements.now (e.0 * 36 + 4) 0) }
{
    let v = VertexId(wide(rows::boundary_at(elements, e, 0)));
    memo::read_point(points, v)
}

// Rule 3: On is flush, else the vertex is given on its side, also when that side is removed.
fn corner_output(e: ElementId, side: Side) -> ElementCutOutput
    ensures { result ≡ corner_output e.0 side }
{
    match side {
        Side::Inside => ElementCutOutput::NonFlush {
            inside: Some(e),
            outside: None,
            intersection: None,
        },
        Side::On => ElementCutOutput::Flush,
        Side::Outside => ElementCutOutput::NonFlush {
            inside: None,
            outside: Some(e),
            intersection: None,
        },
    }
}

// A vertex adds nothing to the table; the warning of its side test is the cut's.
fn cut_corner(
    counts: &[u16],
    points: &[f64],
    elements: &[u16],
    e: ElementId,
    k: Cutter,
    room: &mut Room,
) -> ElementCutOutput
    requires { CornerReady counts.now points.now elements.now e.0 k room.old }
    ensures { CornerCut counts.now points.now elements.now e.0 k room.old result room.new }
{
    let d = wide(counts[0]);
    let p = corner_point(points, elements, e);
    let params = k.params;
    let h = params.divider;
    let s = hypermath::signed_distance(d, h, p);
    let test = hypermath::side_of(s);
    room.note(test.warning);
    let side = test.side;
    corner_output(e, side)
}

// The two numbers of an edge's row, and the point of each.
fn read_ends(points: &[f64], elements: &[u16], e: ElementId) -> EdgeEnds
    requires { EndsReady points.now elements.now e.0 }
    ensures { EndsRead points.now elements.now e.0 result }
{
    let a = ElementId(wide(rows::boundary_at(elements, e, 0)));
    let b = ElementId(wide(rows::boundary_at(elements, e, 1)));
    let p = corner_point(points, elements, a);
    let q = corner_point(points, elements, b);
    EdgeEnds { a, b, p, q }
}

// An end of an edge, by its signed distance.
fn end_output(e: ElementId, s: f64) -> ElementCutOutput
    ensures { result ≡ corner_output e.0 (side_of s) }
{
    let test = hypermath::side_of(s);
    let side = test.side;
    corner_output(e, side)
}

// Ends on the plane are flush, and other ends go to their side; the lower-numbered end comes first.
fn gather_ends(room: &mut Room, a: ElementId, sa: f64, b: ElementId, sb: f64)
    requires { EndsAsked a.0 b.0 room.old }
    ensures { EndsGathered a.0 b.0 sa sb room.old room.new }
{
    room.clear();
    let first = end_output(a, sa);
    room.gather_in(a, first);
    let second = end_output(b, sb);
    room.gather_in(b, second);
}

// The crossing is matched or appended: vertex, then its element. It counts as the flush one.
fn cut_crossed(
    counts: &mut [u16],
    points: &mut [f64],
    elements: &mut [u16],
    index: &mut [u16],
    e: ElementId,
    k: Cutter,
    room: &mut Room,
    x: [f64; 4],
) -> Reply<ElementCutOutput>
    requires { CrossedAsked counts.old points.old elements.old index.old e.0 k room.old x }
    ensures { CrossedLeft counts.old points.old elements.old e.0 k room.old x result
        counts.new points.new elements.new index.new room.new }
{
    let v = memo::add_vertex(counts, points, elements, index, x)?;
    room.flushes = 1;
    room.flush = v;
    answer::rule6(counts, elements, index, e, 1, k, room)
}

// Rule 4; the edge test finds no crossing where an end is flush, and its warning is the cut's.
fn cut_edge(
    counts: &mut [u16],
    points: &mut [f64],
    elements: &mut [u16],
    index: &mut [u16],
    e: ElementId,
    k: Cutter,
    room: &mut Room,
) -> Reply<ElementCutOutput>
    requires { LowAsked counts.old points.old elements.old index.old 1 e.0 k room.old }
    ensures { LowLeft counts.old points.old elements.old 1 e.0 k room.old result
        counts.new points.new elements.new index.new room.new }
{
    let d = wide(counts[0]);
    let ends = read_ends(points, elements, e);
    let params = k.params;
    let h = params.divider;
    let p = ends.p;
    let q = ends.q;
    let sa = hypermath::signed_distance(d, h, p);
    let sb = hypermath::signed_distance(d, h, q);
    let test = hypermath::edge_test(d, h, [p, q]);
    room.note(test.warning);
    gather_ends(room, ends.a, sa, ends.b, sb);
    let crossing = test.crossing;
    match crossing {
        None => answer::rule6(counts, elements, index, e, 1, k, room),
        Some(t) => {
            let at = hypermath::crossing_point(d, [p, q], t);
            cut_crossed(counts, points, elements, index, e, k, room, at)
        }
    }
}

// A vertex element or an edge.
pub fn cut_low(
    counts: &mut [u16],
    points: &mut [f64],
    elements: &mut [u16],
    index: &mut [u16],
    e: ElementId,
    rank: usize,
    k: Cutter,
    room: &mut Room,
) -> Reply<ElementCutOutput>
    requires { LowAsked counts.old points.old elements.old index.old rank e.0 k room.old }
    ensures { LowLeft counts.old points.old elements.old rank e.0 k room.old result
        counts.new points.new elements.new index.new room.new }
{
    if rank == 0 {
        return Ok(cut_corner(counts, points, elements, e, k, room));
    }
    cut_edge(counts, points, elements, index, e, k, room)
}

// Document 02, order 6: where the corners of an element lie to a plane, without a cut.
ghost use Rattle.std.specs.Prelude.{◌+◌, ◌<◌, ◌&&◌, map, ◌≡◌};
ghost use Rattle.rules.specs.Limits.{desk};
ghost use Rattle.rules.specs.Touch.{touch_by, touch_with, touch_reply};
ghost use Rattle.space.specs.Lent.{lent};
ghost use Rattle.elements.specs.Marks.{marked_numbers};
ghost use Rattle.elements.specs.Touches.{corner_side, with_side, tested_to, nothing_tested, CornerReady, WordTestable, WordTested, CornersReady, TouchReady, FiniteTouched};

use crate::levels::level;
use crate::marks::{BITS, Marks, WORDS, zeros_below};
use hypermath::{side_of, signed_distance};
use rules::{ElementId, Hyperplane, Reply, Side, Touch, Touched, VertexId};
use soundness::asked::{Asking, divider_asked};
use space::chains::INDEX;
use space::memo::read_point;
use space::memory::Memory;
use space::rows::boundary_at;
use space::words::wide;

// What the corners tested so far have told, and how many they are.
#[derive(Clone, Copy)]
pub struct Tested {
    pub inside: bool,
    pub outside: bool,
    pub corners: usize,
}

// The side of the vertex that a vertex element's row names.
fn corner_side(points: &[f64], elements: &[u16], e: ElementId, d: usize, h: Hyperplane) -> Side
    requires { CornerReady points.now elements.now e.0 }
    ensures { result ≡ corner_side d h points.now elements.now e.0 }
{
    let v = VertexId(wide(boundary_at(elements, e, 0)));
    let p = read_point(points, v);
    let test = side_of(signed_distance(d, h, p));
    test.side
}

// Whether an inside and an outside corner have been met.
fn both_met(s: Tested) -> bool
    ensures { result ≡ (s.inside && s.outside) }
{
    s.inside && s.outside
}

// One corner more.
fn with_side(s: Tested, side: Side) -> Tested
    requires { s.corners < 512 }
    ensures { result ≡ with_side s side }
{
    let corners = s.corners + 1;
    match side {
        Side::Inside => Tested {
            inside: true,
            corners,
            ..s
        },
        Side::On => Tested { corners, ..s },
        Side::Outside => Tested {
            outside: true,
            corners,
            ..s
        },
    }
}

// The corners of a word, in rising order, by its zeros as document 01 asks, up to and with the first at which both an inside and an outside corner have been met.
fn test_word(
    points: &[f64],
    elements: &[u16],
    word: u64,
    base: usize,
    d: usize,
    h: Hyperplane,
    from: Tested,
) -> Tested
    requires { WordTestable points.now elements.now word base from }
    ensures { WordTested d h points.now elements.now word base from result }
{
    let mut s = from;
    let mut left = word;
    let mut x = base;
    while left != 0 {
        if both_met(s) {
            return s;
        }
        let z = zeros_below(left);
        let side = corner_side(points, elements, ElementId(x + z), d, h);
        s = with_side(s, side);
        left = (left >> z) >> 1;
        x = x + z + 1;
    }
    s
}

// Those of all words.
fn test_corners(
    points: &[f64],
    elements: &[u16],
    corners: &Marks,
    d: usize,
    h: Hyperplane,
) -> Tested
    requires { CornersReady points.now elements.now corners.now.words }
    ensures { result ≡ tested_to nothing_tested (map (corner_side d h points.now elements.now) (marked_numbers corners.now.words)) }
{
    let mut s = Tested {
        inside: false,
        outside: false,
        corners: 0,
    };
    for w in 0..WORDS {
        s = test_word(points, elements, corners.words[w], w * BITS, d, h, s);
    }
    s
}

fn told(s: Tested) -> Touched
    ensures { result ≡ touch_with (touch_by s.inside s.outside) s.corners }
{
    let answer = match (s.inside, s.outside) {
        (false, false) => Touch::AllOn,
        (true, false) => Touch::InsideOrOn,
        (false, true) => Touch::OutsideOrOn,
        (true, true) => Touch::Both,
    };
    Touched {
        answer,
        tested: s.corners,
    }
}

// The corners of the root, by their marks.
fn touch_finite(
    counts: &[u16],
    points: &[f64],
    elements: &[u16],
    h: Hyperplane,
    root: ElementId,
) -> Touched
    requires { TouchReady counts.now points.now elements.now root.0 }
    ensures { FiniteTouched counts.now points.now elements.now h root.0 result }
{
    let s = level(elements, root, 0);
    let d = wide(counts[0]);
    let tested = test_corners(points, elements, &s, d, h);
    told(tested)
}

// Rule 1: all on one side, and no corner is tested.
fn untested(answer: Touch) -> Touched
    ensures { result ≡ touch_with answer 0 }
{
    Touched { answer, tested: 0 }
}

// 3, 4, 5, then rule 1, and the corners. The memory is read only.
pub fn touch(memory: Memory, h: Hyperplane, root: ElementId) -> Reply<Touched>
    ensures { result ≡ touch_reply desk h root.0 (lent memory.entry) }
{
    let mut index = [0u16; INDEX];
    let asked = divider_asked(memory, &mut index, h, root)?;
    Ok(match asked {
        Asking::AllInside => untested(Touch::InsideOrOn),
        Asking::AllOutside => untested(Touch::OutsideOrOn),
        Asking::Finite => touch_finite(memory.counts, memory.points, memory.elements, h, root),
    })
}

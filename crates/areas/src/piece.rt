// One piece: whether its corners are on the grid, and twice the signed area of its walk.
ghost use Rattle.std.specs.Prelude.{◌≡◌, ◌*◌, take};
ghost use Rattle.rules.specs.Lists.{all};
ghost use Rattle.areas.specs.Words.{corner_on_grid, corner_turn, turns_along, word_area, words_on_grid, CornerFits, CornersFit, StepFits, StepsFit, PieceFits};

use crate::grid::{is_on_grid, units_of};
use rules::{ElementId, VertexId};
use space::memo::read_point;
use space::rows;
use space::words::wide;
use walk::walk_face;

// Two vertex numbers for each of at most 32 edges.
const WALK: usize = 64;

fn is_corner_on_grid(points: &[f64], v: VertexId) -> bool
    requires { CornerFits points.now v.0 }
    ensures { result ≡ corner_on_grid points.now v.0 }
{
    let p = read_point(points, v);
    is_on_grid(p[0]) && is_on_grid(p[1])
}

// Positive where the step from a to b turns from axis 0 towards axis 1.
fn corner_turn(points: &[f64], a: VertexId, b: VertexId) -> i64
    requires { StepFits points.now a.0 b.0 }
    ensures { result ≡ corner_turn points.now a.0 b.0 }
{
    let p = read_point(points, a);
    let q = read_point(points, b);
    units_of(p[0]) * units_of(q[1]) - units_of(q[0]) * units_of(p[1])
}

fn are_corners_on_grid(points: &[f64], list: &[u16], n: usize) -> bool
    requires { CornersFit points.now list.now n }
    ensures { result ≡ all (corner_on_grid points.now) (take n list.now) }
{
    list[..n]
        .iter()
        .all(|&v| is_corner_on_grid(points, VertexId(wide(v))))
}

// The turns of n steps.
fn turns_along(points: &[f64], list: &[u16], n: usize) -> i64
    requires { StepsFit points.now list.now n }
    ensures { result ≡ turns_along points.now (take (2 * n) list.now) }
{
    let mut sum = 0i64;
    // The step is counted, since its two places in the list are twice its number.
    for k in 0..n {
        let a = VertexId(wide(list[2 * k]));
        let b = VertexId(wide(list[2 * k + 1]));
        sum = sum + corner_turn(points, a, b);
    }
    sum
}

pub fn is_piece_on_grid(points: &[f64], elements: &[u16], f: ElementId) -> bool
    requires { PieceFits points.now elements.now f.0 }
    ensures { result ≡ words_on_grid points.now elements.now f.0 }
{
    let mut list = [0u16; WALK];
    walk_face(elements, f, &mut list);
    are_corners_on_grid(points, &list, 2 * rows::size_of(elements, f))
}

pub fn twice_area(points: &[f64], elements: &[u16], f: ElementId) -> i64
    requires { PieceFits points.now elements.now f.0 }
    ensures { result ≡ word_area points.now elements.now f.0 }
{
    let mut list = [0u16; WALK];
    walk_face(elements, f, &mut list);
    turns_along(points, &list, rows::size_of(elements, f))
}

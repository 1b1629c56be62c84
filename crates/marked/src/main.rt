// Runs the marked examples of document 01 and its example session through the compiled functions, and prints a line for
// each. The file stdout is written from document 01.
#![tactic(auto)]

mod print;

use elements::questions;
use rules::{CutParams, ElementId, Hyperplane, PolytopeFate};
use space::memory::Memory;
use space::words::{COUNTS, ELEMENT_WORDS, PLANE_FLOATS, POINT_FLOATS};
use std::io;

// 2^-20, and the next float above it.
const TOLERANCE: f64 = 0.00000095367431640625;

const ABOVE_TOLERANCE: f64 = 0.0000009536743164062502;

fn at_x(distance: f64) -> Hyperplane {
    Hyperplane {
        normal: [1.0, 0.0, 0.0, 0.0],
        distance,
    }
}

fn slanted() -> Hyperplane {
    Hyperplane {
        normal: [0.6, 0.8, 0.0, 0.0],
        distance: 1.4,
    }
}

// What an example cuts: a cube of so many dimensions, at a root.
#[derive(Clone, Copy)]
struct Given {
    dimension: u64,
    params: CutParams,
    root: usize,
}

fn cut_of(
    dimension: u64,
    divider: Hyperplane,
    inside: PolytopeFate,
    outside: PolytopeFate,
    root: usize,
) -> Given {
    Given {
        dimension,
        params: CutParams {
            divider,
            inside,
            outside,
        },
        root,
    }
}

// The memory of a table.
#[derive(Drop)]
struct Table {
    counts: [u16; COUNTS],
    points: [f64; POINT_FLOATS],
    planes: [f64; PLANE_FLOATS],
    elements: [u16; ELEMENT_WORDS],
}

impl Table {
    fn new() -> Self {
        Table {
            counts: [0; COUNTS],
            points: [0.0; POINT_FLOATS],
            planes: [0.0; PLANE_FLOATS],
            elements: [0; ELEMENT_WORDS],
        }
    }

    // What is lent to a question.
    fn memory(&self) -> Memory<'_> {
        Memory {
            counts: &self.counts,
            points: &self.points,
            planes: &self.planes,
            elements: &self.elements,
        }
    }

    // A cube of radius 1, in place of what there was.
    fn start(&mut self, dimension: u64) {
        let Table {
            counts,
            points,
            planes,
            elements,
        } = self;
        let _ = cube::with_primordial_cube_radius(dimension, 1.0, counts, points, planes, elements);
    }

    // A cut of the table at hand, and the counts after it.
    fn cut_line(&mut self, rt: &HostRuntime, given: &Given) -> io::Result<()> {
        let Table {
            counts,
            points,
            planes,
            elements,
        } = self;
        let root = ElementId(given.root);
        print::reply(
            rt,
            cut::cut(counts, points, planes, elements, given.params, root),
        )?;
        print::counts(rt, self.counts)
    }

    // A cut of a new cube.
    fn example(&mut self, rt: &HostRuntime, name: &str, given: &Given) -> io::Result<()> {
        self.start(given.dimension);
        print!(rt; "{name} ")?;
        self.cut_line(rt, given)
    }

    // M9: the greatest common sub-elements of some roots of the table at hand.
    fn common_line(&self, rt: &HostRuntime, roots: &[u16]) -> io::Result<()> {
        let mut list = [0u16; 8];
        let reply = questions::greatest_common_subelements(self.memory(), roots, &mut list);
        print::text(rt, b"M9")?;
        print::list_reply(rt, reply, &list)
    }

    // M10: the edges of an element of the table at hand, in order.
    fn walk_line(&self, rt: &HostRuntime, root: usize) -> io::Result<()> {
        let mut list = [0u16; 8];
        let reply = walk::edges_in_order(self.memory(), ElementId(root), &mut list);
        print::text(rt, b"M10")?;
        print::list_reply(rt, reply, &list)
    }
}

// M11: where On ends.
fn sides(rt: &HostRuntime) -> io::Result<()> {
    print::text(rt, b"M11")?;
    print::side(rt, hypermath::side_of(TOLERANCE))?;
    print::side(rt, hypermath::side_of(ABOVE_TOLERANCE))?;
    print::line_end(rt)
}

// The example session, then M1 to M11.
fn main(rt: HostRuntime) -> io::Result<()> {
    let keep = PolytopeFate::Keep;
    let remove = PolytopeFate::Remove;
    let session = cut_of(2, at_x(0.0), keep, keep, 8);
    let examples = [
        ("M1", cut_of(2, at_x(0.0), keep, keep, 8)),
        ("M2", cut_of(2, at_x(0.0), remove, remove, 8)),
        ("M3", cut_of(2, at_x(1.0), keep, remove, 8)),
        ("M4", cut_of(2, at_x(1.0 / 0.0), remove, remove, 8)),
        ("M5", cut_of(2, at_x(0.0), remove, keep, 0)),
        ("M6", cut_of(2, at_x(1.0), keep, keep, 7)),
        ("M7", cut_of(2, slanted(), keep, keep, 8)),
        ("M8", cut_of(1, at_x(0.0), keep, keep, 2)),
    ];
    let mut table = Table::new();
    table.start(2);
    print::text(&rt, b"cube")?;
    print::counts(&rt, table.counts)?;
    table.cut_line(&rt, &session)?;
    table.cut_line(&rt, &session)?;
    for (name, given) in &examples {
        table.example(&rt, name, given)?;
    }
    table.start(2);
    table.common_line(&rt, &[2, 6])?;
    table.common_line(&rt, &[8])?;
    table.common_line(&rt, &[0])?;
    table.walk_line(&rt, 8)?;
    sides(&rt)
}

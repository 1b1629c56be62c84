// The cases of each table, by bit patterns, and the line that is printed for each.
ghost use Rattle.std.specs.Prelude.{◌<◌};

use crate::print::{self, Bits, Crossed, Found, Narrowed, Plane, Point};
use hypermath::patterns::float_of;
use rules::{Hyperplane, HyperplaneId};
use std::io;

// What there is to search, in lists of as many floats: points of four, or hyperplanes of five.
pub const POINTS: usize = 10;

pub const HYPERPLANES: usize = 8;

pub const FLOATS: usize = 40;

// A single float: its side, whether it is a close call, its use as a distance, and whether it is zero bits.
pub fn one(rt: &HostRuntime, pattern: u64) -> io::Result<()> {
    let x = float_of(pattern);
    let test = hypermath::side_of(x);
    println!(rt;
        "one {} {} {} {}",
        print::side(test.side),
        u8::from(test.warning),
        print::kind(hypermath::distance_kind(x)),
        u8::from(hypermath::is_zero_bits(x))
    )
}

// A float narrowed to 32 bits; a NaN has none to show.
pub fn narrowing(rt: &HostRuntime, pattern: u64) -> io::Result<()> {
    println!(rt; "narrow {}", Narrowed(float_of(pattern)))
}

// Two floats: a bound and x, two coordinates, and the ends of an edge on the first axis, whose signed distances they are.
pub fn pair(rt: &HostRuntime, patterns: [u64; 2]) -> io::Result<()> {
    let [a, b] = patterns.map(float_of);
    let first_axis = Hyperplane {
        normal: [1.0, 0.0, 0.0, 0.0],
        distance: 0.0,
    };
    let ends = [[a, 0.0, 0.0, 0.0], [b, 0.0, 0.0, 0.0]];
    println!(rt;
        "pair {} {} {} {}",
        u8::from(hypermath::is_within(a, b)),
        u8::from(hypermath::same_bits(a, b)),
        u8::from(hypermath::coordinates_match(a, b)),
        Crossed(hypermath::edge_test(1, first_axis, ends))
    )
}

// Two ends, and x brought between them.
pub fn clamp(rt: &HostRuntime, patterns: [u64; 3]) -> io::Result<()> {
    let [a, b, x] = patterns.map(float_of);
    println!(rt; "clamp {}", Bits(hypermath::clamp(a, b, x)))
}

// A row of the hyperplanes, as it is read.
pub fn row(rt: &HostRuntime, planes: &[f64; FLOATS], k: usize) -> io::Result<()>
    requires { k < HYPERPLANES }
{
    println!(rt;
        "row {}",
        Plane(hypermath::hyperplane_at(planes, HyperplaneId(k)))
    )
}

// Two points, and where between them.
pub struct TwoPoints {
    pub dimension: usize,
    pub t: u64,
    pub a: [u64; 4],
    pub b: [u64; 4],
}

impl TwoPoints {
    // Their product, whether they match, and the crossing between them.
    pub fn print(&self, rt: &HostRuntime) -> io::Result<()> {
        let a = self.a.map(float_of);
        let b = self.b.map(float_of);
        println!(rt;
            "ends {} {} {}",
            Bits(hypermath::dot(self.dimension, a, b)),
            u8::from(hypermath::points_match(self.dimension, a, b)),
            Point(hypermath::crossing_point(self.dimension, [a, b], float_of(self.t)))
        )
    }
}

fn hyperplane(normal: [u64; 4], distance: u64) -> Hyperplane {
    Hyperplane {
        normal: normal.map(float_of),
        distance: float_of(distance),
    }
}

// A hyperplane and the ends of an edge.
pub struct Edge {
    pub dimension: usize,
    pub distance: u64,
    pub normal: [u64; 4],
    pub a: [u64; 4],
    pub b: [u64; 4],
}

impl Edge {
    // Both signed distances, and the crossing.
    pub fn print(&self, rt: &HostRuntime) -> io::Result<()> {
        let h = hyperplane(self.normal, self.distance);
        let a = self.a.map(float_of);
        let b = self.b.map(float_of);
        println!(rt;
            "edge {} {} {}",
            Bits(hypermath::signed_distance(self.dimension, h, a)),
            Bits(hypermath::signed_distance(self.dimension, h, b)),
            Crossed(hypermath::edge_test(self.dimension, h, [a, b]))
        )
    }
}

pub struct Normal {
    pub dimension: usize,
    pub normal: [u64; 4],
}

impl Normal {
    // Whether it is unit.
    pub fn print(&self, rt: &HostRuntime) -> io::Result<()> {
        let is_unit = hypermath::is_unit(self.dimension, self.normal.map(float_of));
        println!(rt; "normal {}", u8::from(is_unit))
    }
}

pub struct TwoPlanes {
    pub dimension: usize,
    pub earlier_distance: u64,
    pub later_distance: u64,
    pub earlier: [u64; 4],
    pub later: [u64; 4],
}

impl TwoPlanes {
    // Whether they match.
    pub fn print(&self, rt: &HostRuntime) -> io::Result<()> {
        let earlier = hyperplane(self.earlier, self.earlier_distance);
        let later = hyperplane(self.later, self.later_distance);
        let matches = hypermath::hyperplanes_match(self.dimension, earlier, later);
        println!(rt; "planes {}", u8::from(matches))
    }
}

// A point to find among so many.
pub struct PointSearch {
    pub dimension: usize,
    pub count: usize,
    pub wanted: [u64; 4],
}

impl PointSearch {
    // The lowest vertex that matches.
    pub fn print(&self, rt: &HostRuntime, points: &[f64; FLOATS]) -> io::Result<()> {
        let count = self.count.min(POINTS);
        let wanted = self.wanted.map(float_of);
        let found = hypermath::find_vertex(self.dimension, points, count, wanted);
        println!(rt; "vertex {}", Found::from(found))
    }
}

// A hyperplane to find among so many, from a first one up.
pub struct PlaneSearch {
    pub dimension: usize,
    pub first: usize,
    pub count: usize,
    pub distance: u64,
    pub wanted: [u64; 4],
}

impl PlaneSearch {
    // The lowest hyperplane that matches.
    pub fn print(&self, rt: &HostRuntime, planes: &[f64; FLOATS]) -> io::Result<()> {
        let first = HyperplaneId(self.first);
        let count = self.count.min(HYPERPLANES);
        let wanted = hyperplane(self.wanted, self.distance);
        let found = hypermath::find_hyperplane(self.dimension, planes, first, count, wanted);
        println!(rt; "hyperplane {}", Found::from(found))
    }
}

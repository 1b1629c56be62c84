// How a line shows what the functions answer.
use hypermath::DistanceKind;
use hypermath::narrow::narrowed_bits;
use rules::{EdgeTest, Hyperplane, HyperplaneId, Side, VertexId};
use std::fmt;

// The 16 hexadecimal digits of a float: a NaN has no bits to show.
#[derive(Clone, Copy)]
pub struct Bits(pub f64);

impl fmt::Display for Bits {
    fn fmt<W: fmt::Write>(&self, f: &mut fmt::Formatter<W>) -> fmt::Result {
        if self.0.is_nan() {
            return f.write_str("nan");
        }
        write!(f, "{:016x}", self.0.to_bits())
    }
}

// The 8 hexadecimal digits of the nearest float of 32 bits.
#[derive(Clone, Copy)]
pub struct Narrowed(pub f64);

impl fmt::Display for Narrowed {
    fn fmt<W: fmt::Write>(&self, f: &mut fmt::Formatter<W>) -> fmt::Result {
        if self.0.is_nan() {
            return f.write_str("nan");
        }
        write!(f, "{:08x}", narrowed_bits(self.0))
    }
}

#[derive(Clone, Copy)]
pub struct Point(pub [f64; 4]);

impl fmt::Display for Point {
    fn fmt<W: fmt::Write>(&self, f: &mut fmt::Formatter<W>) -> fmt::Result {
        let [x, y, z, w] = self.0;
        write!(f, "{} {} {} {}", Bits(x), Bits(y), Bits(z), Bits(w))
    }
}

#[derive(Clone, Copy)]
pub struct Plane(pub Hyperplane);

impl fmt::Display for Plane {
    fn fmt<W: fmt::Write>(&self, f: &mut fmt::Formatter<W>) -> fmt::Result {
        write!(f, "{} {}", Point(self.0.normal), Bits(self.0.distance))
    }
}

// The crossing, and the warning.
#[derive(Clone, Copy)]
pub struct Crossed(pub EdgeTest);

impl fmt::Display for Crossed {
    fn fmt<W: fmt::Write>(&self, f: &mut fmt::Formatter<W>) -> fmt::Result {
        let warning = u8::from(self.0.warning);
        match self.0.crossing {
            None => write!(f, "none {warning}"),
            Some(t) => write!(f, "at {} {warning}", Bits(t)),
        }
    }
}

// The number of what was found, if anything was.
#[derive(Clone, Copy)]
pub struct Found(Option<usize>);

impl From<Option<VertexId>> for Found {
    fn from(found: Option<VertexId>) -> Self {
        Found(found.map(|id| id.0))
    }
}

impl From<Option<HyperplaneId>> for Found {
    fn from(found: Option<HyperplaneId>) -> Self {
        Found(found.map(|id| id.0))
    }
}

impl fmt::Display for Found {
    fn fmt<W: fmt::Write>(&self, f: &mut fmt::Formatter<W>) -> fmt::Result {
        match self.0 {
            None => f.write_str("none"),
            Some(number) => write!(f, "at {number}"),
        }
    }
}

pub fn side(side: Side) -> &'static str {
    match side {
        Side::Inside => "inside",
        Side::On => "on",
        Side::Outside => "outside",
    }
}

pub fn kind(kind: DistanceKind) -> &'static str {
    match kind {
        DistanceKind::Unfit => "unfit",
        DistanceKind::Finite => "finite",
        DistanceKind::PlusInfinity => "plus_infinity",
        DistanceKind::MinusInfinity => "minus_infinity",
    }
}

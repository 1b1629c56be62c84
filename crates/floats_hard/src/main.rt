// Runs the float functions over hard inputs and prints a line for each case. tests/floats/make_expected.py writes the
// inputs, and works out by exact fractions what is to be printed.
#![tactic(auto)]

mod cases;
mod print;
mod table;

use cases::HYPERPLANES;
use hypermath::patterns::float_of;
use std::io;

fn main(rt: HostRuntime) -> io::Result<()> {
    table::ONES.iter().try_for_each(|x| cases::one(&rt, *x))?;
    table::PAIRS
        .iter()
        .try_for_each(|pair| cases::pair(&rt, *pair))?;
    table::CLAMPS
        .iter()
        .try_for_each(|clamp| cases::clamp(&rt, *clamp))?;
    table::ENDS.iter().try_for_each(|ends| ends.print(&rt))?;
    table::EDGES.iter().try_for_each(|edge| edge.print(&rt))?;
    table::NORMALS
        .iter()
        .try_for_each(|normal| normal.print(&rt))?;
    table::PLANE_PAIRS
        .iter()
        .try_for_each(|pair| pair.print(&rt))?;
    search(&rt)?;
    table::NARROWINGS
        .iter()
        .try_for_each(|x| cases::narrowing(&rt, *x))
}

// The searches, over the rows that they read.
fn search(rt: &HostRuntime) -> io::Result<()> {
    let points = table::POINTS.map(float_of);
    let planes = table::PLANES.map(float_of);
    (0..HYPERPLANES).try_for_each(|k| cases::row(rt, &planes, k))?;
    table::VERTEX_SEARCHES
        .iter()
        .try_for_each(|search| search.print(rt, &points))?;
    table::PLANE_SEARCHES
        .iter()
        .try_for_each(|search| search.print(rt, &planes))
}

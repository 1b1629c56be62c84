// What the memory holds before a case: nothing or a cube, and then runs of words over it.
use crate::word::put;
use rules::Reply;

// The slices of a table.
#[derive(Clone, Copy)]
pub enum Slice {
    Counts,
    Points,
    Planes,
    Elements,
}

// What is put into a slice, by its pattern: a word at a place, or one after another, place and pattern growing each time.
#[derive(Clone, Copy)]
pub enum Run {
    Word(Slice, usize, u64),
    Series {
        slice: Slice,
        position: usize,
        value: u64,
        times: usize,
        stride: usize,
        growth: u64,
    },
}

// A cube of this dimension and radius 1, or none where it is 0, and runs of words over it.
pub struct Held {
    pub cube: u64,
    pub runs: &'static [Run],
}

// How many words of each slice are lent.
#[derive(Clone, Copy)]
pub struct Lengths {
    pub counts: usize,
    pub points: usize,
    pub planes: usize,
    pub elements: usize,
}

// The lengths of a right memory.
pub const ROOM: Lengths = Lengths {
    counts: 4,
    points: 1024,
    planes: 320,
    elements: 18432,
};

// Each slice has one word more than its room, so that one too long can be lent.
#[derive(Drop)]
pub struct Memory {
    pub counts: [u16; 5],
    pub points: [f64; 1025],
    pub planes: [f64; 321],
    pub elements: [u16; 18433],
}

impl Memory {
    pub fn new() -> Self {
        Memory {
            counts: [0; 5],
            points: [0.0; 1025],
            planes: [0.0; 321],
            elements: [0; 18433],
        }
    }

    // This and nothing else; of dimension 0 there is no cube, and the memory is clear before the runs.
    pub fn hold(&mut self, held: &Held) {
        self.counts.fill(0);
        self.points.fill(0.0);
        self.planes.fill(0.0);
        self.elements.fill(0);
        let _ = self.put_cube(ROOM, held.cube, 1.0);
        self.put_all(held.runs);
    }

    pub fn put_all(&mut self, runs: &[Run]) {
        for run in runs {
            self.put_run(*run);
        }
    }

    fn put_run(&mut self, run: Run) {
        match run {
            Run::Word(slice, position, value) => self.put(slice, position, value),
            Run::Series {
                slice,
                mut position,
                mut value,
                times,
                stride,
                growth,
            } => {
                for _ in 0..times {
                    self.put(slice, position, value);
                    position = position.wrapping_add(stride);
                    value = value.wrapping_add(growth);
                }
            },
        }
    }

    fn put(&mut self, slice: Slice, position: usize, value: u64) {
        match slice {
            Slice::Counts => put(&mut self.counts, position, value),
            Slice::Points => put(&mut self.points, position, value),
            Slice::Planes => put(&mut self.planes, position, value),
            Slice::Elements => put(&mut self.elements, position, value),
        }
    }

    // The reply of the cube on slices of these lengths.
    pub fn put_cube(&mut self, lengths: Lengths, dimension: u64, radius: f64) -> Reply<()> {
        let Memory {
            counts,
            points,
            planes,
            elements,
        } = self;
        cube::with_primordial_cube_radius(
            dimension,
            radius,
            lent_mut(counts, lengths.counts),
            lent_mut(points, lengths.points),
            lent_mut(planes, lengths.planes),
            lent_mut(elements, lengths.elements),
        )
    }

    // The soundness test of slices of these lengths.
    pub fn soundness(&self, lengths: Lengths) -> Reply<()> {
        soundness::sound::is_sound(space::memory::Memory {
            counts: lent(&self.counts, lengths.counts),
            points: lent(&self.points, lengths.points),
            planes: lent(&self.planes, lengths.planes),
            elements: lent(&self.elements, lengths.elements),
        })
    }
}

// As many words of a slice as are wanted, where there are so many.
fn lent<W>(list: &[W], wanted: usize) -> &[W] {
    &list[..wanted.min(list.len())]
}

fn lent_mut<W>(list: &mut [W], wanted: usize) -> &mut [W] {
    let end = wanted.min(list.len());
    &mut list[..end]
}

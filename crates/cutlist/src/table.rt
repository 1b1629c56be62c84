// The memory of a table, and whether one stands there.
use session::{Taken, Untaken};
use space::words::{COUNTS, ELEMENT_WORDS, PLANE_FLOATS, POINT_FLOATS};

#[derive(Drop)]
pub struct Table {
    counts: [u16; COUNTS],
    points: [f64; POINT_FLOATS],
    planes: [f64; PLANE_FLOATS],
    elements: [u16; ELEMENT_WORDS],
    pub stands: bool,
}

impl Table {
    pub fn new() -> Self {
        Table {
            counts: [0; COUNTS],
            points: [0.0; POINT_FLOATS],
            planes: [0.0; PLANE_FLOATS],
            elements: [0; ELEMENT_WORDS],
            stands: false,
        }
    }

    pub fn turn(&mut self, input: &[u8], room: &mut [u8]) -> Result<Taken, Untaken> {
        let Table {
            counts,
            points,
            planes,
            elements,
            stands,
        } = self;
        session::turn(input, *stands, counts, points, planes, elements, room)
    }
}

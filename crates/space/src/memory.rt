// The four slices of a table's memory, read only, lent as one value.

// Any four slices make one: whether they are the room of a table is asked.
// What writes takes the four as they are: of a struct with four `&mut` each contract would say too that every field is still the slice that was lent. What needs only some of them is lent those.
#[derive(Clone, Copy)]
pub struct Memory<'a> {
    pub counts: &'a [u16],
    pub points: &'a [f64],
    pub planes: &'a [f64],
    pub elements: &'a [u16],
}

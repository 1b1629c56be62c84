// Whether a lent memory is sound, on any four slices, line by line.
#![tactic(auto)]

pub mod asked;
mod boundaries;
mod chains;
pub mod floats;
mod known;
pub mod row;
pub mod sound;

// The lent memory: everything between the four slices and the table of the rules.
#![tactic(auto)]

mod adding;
pub mod chains;
pub mod closed;
pub mod corner_words;
pub mod memo;
pub mod memory;
pub mod restore;
pub mod rows;
pub mod words;

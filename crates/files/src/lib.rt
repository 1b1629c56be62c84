// A table as the bytes of its one file, and back.
#![tactic(auto)]

mod entries;
mod judge;
mod layout;
pub mod open;
mod put;
mod records;
mod rows;
pub mod save;

// Questions over a table in the lent memory, which is read only.
#![tactic(auto)]

mod below;
mod common;
mod levels;
mod listing;
mod marks;
pub mod questions;
mod ranks;
pub mod touch;

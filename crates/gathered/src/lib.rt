// What a boundary's elements answer, gathered, and rules 6 to 8.
#![tactic(auto)]

pub mod answer;
pub mod sets;

// Numbers and floats in lent bytes: read, written little-endian, and written in decimal.
#![tactic(auto)]

pub mod decimal;
pub mod read;
pub mod write;

// Words of 32 bits: what the instruction set calculates and compares.
#![tactic(auto)]

pub mod arithmetic;
pub mod operations;
pub mod signed;

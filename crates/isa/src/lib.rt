// The 2023 instruction set: the instruction word's fields, the opcodes, and the I/O registers.
// Stays (1): document 01's instruction word holds the opcode as a number, which decode and execute match.
#![tactic(auto)]

pub mod io;
pub mod opcodes;
pub mod word;

// The fields of an instruction word, as numbers.
#[derive(Clone, Copy)]
pub struct Fields {
    pub op: u32,
    pub rd: usize,
    pub rs: usize,
    pub rt: usize,
    pub rm: usize,
    pub imm1: u32,
    pub imm2: u32,
}

// What an operation that uses the I/O registers does with one.
#[derive(Clone, Copy)]
pub enum Access {
    // in reads one.
    Read,
    // out writes one.
    Write,
}

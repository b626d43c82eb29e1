// The record of the machine, and what an instruction works on. What a cycle does with them stands in specs/.
// Stays (1): status and flag are fields of the saved record and of the C interface, which may hold unsound ones (question 13).
#![tactic(auto)]

use devices::Drive;

pub mod scalars;

// The record's scalars: status, handler flag, PC, age (cycles done) and the disk's part.
#[derive(Clone, Copy)]
pub struct Core {
    pub status: u32,
    pub handler: u32,
    pub pc: u32,
    pub age: u64,
    pub drive: Drive,
}

// The record: the scalars, R3 to R15, and the I/O registers by number (18, 19 and 22 hold 0).
#[derive(Clone, Copy)]
pub struct Record {
    pub core: Core,
    pub regs: [u32; 13],
    pub io: [u32; 23],
}

// What an instruction works on: R[rs], R[rt], R[rm] and R[rd] before execution, and the number of rd.
#[derive(Clone, Copy)]
pub struct Operands {
    pub rs: u32,
    pub rt: u32,
    pub rm: u32,
    pub rd: u32,
    pub target: usize,
}

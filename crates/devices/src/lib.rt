// The timer, the disk and the clock, as any computer has them.
// Stays (1): a drive's three numbers are fields of the saved record and of the C interface, zero where the disk is free; `Taken` has two ways without a value.
#![tactic(auto)]

pub mod clock;
pub mod command;
pub mod cycle;
pub mod disk;
pub mod numbers;
pub mod sizes;
pub mod sound;
pub mod timer;

// The disk's part of a record: cycles to go, and the sector and buffer taken at acceptance. All zero while the disk is free.
#[derive(Clone, Copy)]
pub struct Drive {
    pub left: u32,
    pub sector: u32,
    pub buffer: u32,
}

// What becomes of an out to diskcmd.
#[derive(Drop)]
pub enum Taken {
    // The disk is busy.
    Ignored,
    // It is free, and this is no command.
    Cleared,
    // A command, with the disk's part of the record from now on.
    Accepted(Drive),
    // A command without room for its sector.
    NoRoom,
}

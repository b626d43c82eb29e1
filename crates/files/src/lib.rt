// The memory files (one word a line, 12, 8 or 2 hexadecimal digits) and the irq2 file (one cycle a line, decimal): their readers and
// writers.
#![tactic(auto)]

mod answers;
mod cell;
mod check;
mod fill;
mod irq2;
mod put;
mod read;
mod sizes;
mod write;

pub use cell::Cell;
pub use irq2::read_irq2;
pub use put::put_words;
pub use read::{read_data, read_disk, read_frame, read_image};
pub use sizes::{DATA_WORDS, DISK_WORDS, WORD_DIGITS};
pub use write::{write_data, write_disk, write_frame, write_image};

// Why a memory file is refused. Places are lines, from 1.
#[derive(Clone, Copy)]
pub enum FileError {
    // The lent memory has not the length that it should have.
    WrongLength,
    // No word is left for this line.
    NoWord(usize),
    // This line has not the right digits.
    BadDigits(usize),
}

// Why an irq2 file is refused. Places are lines, from 1.
#[derive(Clone, Copy)]
pub enum CycleError {
    // No word is left for this line.
    NoWord(usize),
    // This line is no cycle: not 1 to 13 decimal digits, or not below the limit.
    BadCycle(usize),
    // The cycle on this line is not above the one before.
    NotRising(usize),
}

// Why a memory is not written.
#[derive(Clone, Copy)]
pub enum WriteError {
    // The lent memory has not its length, or the disk has no such part: no sector at all, or one past its end.
    WrongLength,
    // The lent slice is shorter than the text.
    NoRoom,
}

// Intel HEX for memories of 32-bit words: read into a memory of any number of them, and written from one that records of 16 bytes fill within 64 KiB.
// Nothing here knows of a computer.
#![tactic(auto)]

mod answers;
mod ask;
mod fill;
mod pairs;
mod put;
mod read;
mod record;

pub use put::put_hex_text;
pub use read::read_hex;

// Why a text is refused. Places are lines, from 1.
#[derive(Clone, Copy)]
pub enum HexError {
    // The lent memory has not the length that it should have.
    WrongLength,
    // This line is no record, or an end record with data or with text after it.
    BadRecord(usize),
    // This record is of another type than 00 and 01; or the end record is missing, and this is the line after the last.
    BadType(usize),
    // A byte of this record lies past the memory, or its first byte is not above the last one named before it.
    BadAddress(usize),
}

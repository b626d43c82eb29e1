// The assembler: assembly text into the instruction image and the data memory. What it answers and what a good text gives stand in specs/.
#![tactic(auto)]

mod answers;
mod calls;
mod translate;

pub use calls::assemble;

// Why a text is refused. Places are lines, from 1.
#[derive(Clone, Copy)]
pub enum AssembleError {
    // The text is too long, or the image or the data memory has not its length.
    WrongLength,
    // The line is too long, or has a byte that may not stand in a line.
    BadBytes(usize),
    // The line has none of the forms.
    WrongForm(usize),
    // The op, or a register, is unknown.
    UnknownName(usize),
    // A number is out of range.
    OutOfRange(usize),
    // The label is defined on an earlier line.
    DefinedBefore(usize),
    // A label that is used is defined on no line.
    Undefined(usize),
    // No address is left for the instruction or the label, or there are too many labels.
    NoPlace(usize),
}

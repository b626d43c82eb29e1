// One line of an assembly text: what it says, the questions that it is asked, and what it stores.
// Stays (1, 2): a line's questions are asked in document 01's order, of which question 6, between them, asks of other lines, so each answer is a flag; an immediate has two of them.
#![tactic(auto)]

pub mod ask;
pub mod read;
pub mod store;

// What a line says: whether its names are known, its numbers are in range and the labels that it uses are defined; the word of its instruction; the
// address and the data of its `.word`.
#[derive(Clone, Copy)]
pub struct Statement {
    pub known: bool,
    pub inside: bool,
    pub defined: bool,
    pub word: u64,
    pub address: usize,
    pub value: u32,
}

// An immediate: whether it is in range, whether it is a number or a label that is defined, and what is stored of it.
#[derive(Clone, Copy)]
pub struct Immediate {
    pub inside: bool,
    pub defined: bool,
    pub value: u32,
}

// The first question that a line gets a no to.
#[derive(Clone, Copy)]
pub enum LineError {
    // The line is too long, or has a byte that may not stand in a line.
    BadBytes,
    // The line has none of the forms.
    WrongForm,
    // The op, or a register, is unknown.
    UnknownName,
    // A number is out of range.
    OutOfRange,
    // The label is defined on an earlier line.
    DefinedBefore,
    // A label that is used is defined on no line.
    Undefined,
    // No address is left for the instruction or the label, or there are too many labels.
    NoPlace,
}

// Assembly text without an instruction set: bytes, tokens with their places, numbers, names and the shapes of lines. What they are stands in specs/.
// Stays (1): a prefix has a base and the most digits, and is an Option where it is read.
#![tactic(auto)]

pub mod bytes;
pub mod names;
pub mod numbers;
pub mod shapes;
pub mod tokens;

// What a token is as a number: how it is written, and its digits' value.
#[derive(Clone, Copy)]
pub enum Number {
    // Decimal digits.
    Decimal(u64),
    // `-` and decimal digits.
    Minus(u64),
    // 0x and hexadecimal digits, or 0b and binary ones.
    Unsigned(u64),
}

// The prefix of a token: the base of the digits after it, and how many there may be.
#[derive(Clone, Copy)]
pub struct Prefix {
    pub base: u64,
    pub most: usize,
}

// Where a token stands in a line: its first byte, and the byte after its last.
#[derive(Clone, Copy)]
pub struct Span {
    pub start: usize,
    pub end: usize,
}

// No token stands there: a place that is not filled yet.
pub const NOWHERE: Span = Span { start: 0, end: 0 };

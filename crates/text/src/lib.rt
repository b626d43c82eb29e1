// Numerals and lines in slices of bytes, and what a call that asks questions answers. Nothing here knows of a computer.
// Stays (1): what a call answers in numbers is what the C face returns (simp `simp_run` and the others): number, place and count.
#![tactic(auto)]

pub mod decimal;
pub mod digits;
pub mod hex_words;
pub mod lines;
pub mod outcomes;
pub mod place;
pub mod same;

// Digits that a number holds, the first in its low byte, and what is left of the number that they were taken from.
#[derive(Clone, Copy)]
pub struct Taken {
    pub held: u64,
    pub rest: u64,
}

// The number and the place of a call's first no, number 0 being none; and a count, 0 where the call has none.
#[derive(Clone, Copy)]
pub struct Outcome {
    pub number: u32,
    pub place: usize,
    pub count: usize,
}

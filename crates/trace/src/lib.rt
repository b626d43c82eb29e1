// The log's lines, put at a place, and what is held from one cycle to the next: the text of R3 to R15, with which each T line ends, and the prefix
// with which the others begin.
#![tactic(auto)]

pub mod fields;
pub mod log_lines;
pub mod prefixes;
pub mod registers;

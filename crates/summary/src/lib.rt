// The lines that follow a log, or stand for one: E after a run, N for a file that is refused.
#![tactic(auto)]

mod fields;
mod lines;
mod time;

pub use lines::{put_line_e, put_line_n};
pub use time::milliseconds;

// Runs whose log goes out in pieces, and the lines E and N that follow a log or stand for one.
// Stays (1): record and cycles say where a run stands whether its log was written or not, as `Pieces.Ends` has it.
#![tactic(auto)]

use console::Writing;
use machine::Record;

mod print;
mod progress;
mod run;
mod send;

pub use print::{print_line_e, print_line_n};
pub use run::{run_budget, run_on};

// Where a log goes.
#[derive(Clone, Copy)]
pub enum Sink<'a> {
    // All lines, to standard output.
    Output,
    // All lines, to a file that is begun; one that can't be written takes none.
    Whole(&'a Option<Writing>),
    // The lines T, H, L and D, without their letters, to one each.
    Split(&'a Option<Writing>, &'a Option<Writing>, &'a Option<Writing>, &'a Option<Writing>),
}

// How a run whose log goes out in pieces ended: the record, the cycles that were made, and whether each piece of its log was written. (`written` is no
// error in place of the others: record and cycles say where the run stands in either case, as `Pieces.Ends` has it.)
#[derive(Clone, Copy)]
pub struct RunEnd {
    pub state: Record,
    pub cycles: u64,
    pub written: bool,
}

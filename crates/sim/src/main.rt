// Runs a program on the course paper's fourteen files: `sim IMEMIN DMEMIN .. MONITOR.YUV`, and a number of cycles after them if the run is to stop.
// Without these it prints a help text.
// Stays (2, 7): the number of arguments says which way `sim` is called, as its help text has it; the limit is document 01's number.
#![tactic(auto)]

mod help;

use crate::help::print_help;
use console::{are_names, argument_count, open_missing_standard_streams};
use memories::read_budget;
use run_commands::simulate;

// The age at which a machine makes no cycle any more: as good as no budget.
const MOST_CYCLES: u64 = 1_099_511_627_775;

fn main(rt: HostRuntime) {
    open_missing_standard_streams(rt);
    match argument_count(rt) {
        15 => simulate_names(rt, MOST_CYCLES),
        16 => simulate_budget(rt),
        _ => print_help(rt),
    }
}

// Runs with the budget of the fifteenth argument.
fn simulate_budget(rt: HostRuntime) {
    if let Some(budget) = read_budget(rt, 15) {
        simulate_names(rt, budget);
    }
}

// Runs with a budget.
fn simulate_names(rt: HostRuntime, budget: u64) {
    if are_names(rt, 1, 14) {
        simulate(rt, 1, budget);
    }
}

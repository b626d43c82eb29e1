// The simulator: one cycle of the machine on lent memories, with its log lines.
#![tactic(auto)]

use machine::Core;

pub mod cycle;
pub mod interrupts;
pub mod io_lines;
pub mod lengths;

// What a cycle leaves: the scalars, and the log's place after its lines.
#[derive(Drop)]
pub struct Step {
    pub core: Core,
    pub at: usize,
}

// The commands `sim` and `resume`, on the files that a program's arguments name. Each says on standard output where and why the run stopped.
// Stays (6): the four files have the log's four names, and no order.
#![tactic(auto)]

use console::Writing;

mod course;
mod ends;
mod logs;
mod report;
mod resuming;
mod start;
mod writing_back;

pub use course::simulate;
pub use resuming::resume;

// The four files that a log is split into, each if it can be written.
#[derive(Drop)]
pub struct LogFiles {
    pub trace: Option<Writing>,
    pub hwregtrace: Option<Writing>,
    pub leds: Option<Writing>,
    pub display7seg: Option<Writing>,
}

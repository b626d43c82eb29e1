// Runs: cycles of the machine on lent memories, with their log lines. What a run does, and demand 3, stand in specs/ and proofs/.
// Stays (1): a refused run hands its record back with counts of zero, as document 01 says and the theorem of demand 3 (`done_of`) needs.
#![tactic(auto)]

use machine::{Core, Record};

mod answers;
mod calls;
mod cycles;
mod questions;

pub use calls::run;

// Why a run ended.
#[derive(Clone, Copy)]
pub enum Reason {
    // Its budget is spent.
    BudgetSpent,
    // The machine has stopped: its status is not 0.
    Stopped,
    // The lines of the next cycle don't fit the rest of the log.
    LogFull,
    // The machine is at the cycle limit.
    AtLimit,
}

// Which question refused a run.
#[derive(Clone, Copy)]
pub enum RunError {
    // A lent memory has not its length.
    WrongLength,
    // The irq2 list is not strictly rising.
    NotRising,
    // The record is not sound.
    Unsound,
}

// What a run hands back: the record, the cycles that it made, the log bytes that it wrote, and why it ended. One that is refused hands its record back,
// and made and wrote nothing.
#[derive(Clone, Copy)]
pub struct RunReport {
    pub state: Record,
    pub cycles: u64,
    pub bytes: usize,
    pub answer: Result<Reason, RunError>,
}

// Where a run's cycles ended: the scalars then, the cycles made, the log's place after their lines, and why.
#[derive(Clone, Copy)]
pub struct Ended {
    pub core: Core,
    pub cycles: u64,
    pub at: usize,
    pub reason: Reason,
}

// Document 01's proved examples and the mistakes it excludes, each computed: definitions and theorems, in specs/. And one list of real calls, with what
// demand 3 says of it: a run that is stopped and resumed.
// Stays (1): the theorem `StopAndResume` speaks of the record read, fresh where none was.
#![tactic(auto)]

use machine::Record;
use runner::RunReport;
use text::Outcome;

mod resume;
mod trips;

pub use resume::stop_and_resume;

// A record's return trip: the record to go on with, the one that was read, fresh where none was, and the outcome.
#[derive(Drop)]
pub struct RecordTrip {
    pub state: Record,
    pub read: Record,
    pub outcome: Outcome,
}

// What a stopped and resumed run hands back: what each run does, the record's return trip, and the outcome of the sector's.
#[derive(Drop)]
pub struct Resumed {
    pub first: RunReport,
    pub trip: RecordTrip,
    pub sector: Outcome,
    pub second: RunReport,
}

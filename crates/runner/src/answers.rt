// What each answer is in numbers.
// Stays (1, 2, 4): the reason of a refused run is 0, as document 01 says of every count and reason.
ghost use Rattle.std.specs.Prelude.{◌≡◌};
ghost use Rattle.runner.specs.Answers.{reason_number, run_refusal, ran_outcome, ran_reason};

use crate::{Reason, RunError, RunReport};
use text::Outcome;
use text::outcomes::{Refusal, accepted, refused};

impl Reason {
    // The number of a reason.
    pub fn number(self) -> u64
        ensures { result ≡ reason_number self }
    {
        match self {
            Reason::BudgetSpent => 0,
            Reason::Stopped => 1,
            Reason::LogFull => 2,
            Reason::AtLimit => 3,
        }
    }
}

impl Refusal for RunError {
    ghost refusal = { run_refusal };

    fn outcome(self) -> Outcome {
        match self {
            RunError::WrongLength => refused(1, 0),
            RunError::NotRising => refused(12, 0),
            RunError::Unsound => refused(13, 0),
        }
    }
}

impl RunReport {
    // The outcome of a run.
    pub fn outcome(&self) -> Outcome
        ensures { result ≡ ran_outcome self.now.answer }
    {
        match self.answer {
            Ok(_) => accepted(0),
            Err(error) => error.outcome(),
        }
    }

    // The number of a run's reason; 0 where it is refused.
    pub fn reason(&self) -> u64
        ensures { result ≡ ran_reason self.now.answer }
    {
        match self.answer {
            Ok(reason) => reason.number(),
            Err(_) => 0,
        }
    }
}

// What each refusal is in numbers.
// Stays (2, 4): each error enum says its own number once, by the trait `Refusal`.
ghost use Rattle.files.specs.Answers.{file_refusal, cycle_refusal, write_refusal};

use crate::{CycleError, FileError, WriteError};
use text::Outcome;
use text::outcomes::{Refusal, refused};

impl Refusal for FileError {
    ghost refusal = { file_refusal };

    fn outcome(self) -> Outcome {
        match self {
            FileError::WrongLength => refused(1, 0),
            FileError::NoWord(line) => refused(10, line),
            FileError::BadDigits(line) => refused(9, line),
        }
    }
}

impl Refusal for CycleError {
    ghost refusal = { cycle_refusal };

    fn outcome(self) -> Outcome {
        match self {
            CycleError::NoWord(line) => refused(10, line),
            CycleError::BadCycle(line) => refused(11, line),
            CycleError::NotRising(line) => refused(12, line),
        }
    }
}

impl Refusal for WriteError {
    ghost refusal = { write_refusal };

    fn outcome(self) -> Outcome {
        match self {
            WriteError::WrongLength => refused(1, 0),
            WriteError::NoRoom => refused(15, 0),
        }
    }
}

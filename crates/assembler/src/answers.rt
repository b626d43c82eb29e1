// What each error is in numbers.
// Stays (2, 4): each error enum says its own number once, by the trait `Refusal`.
ghost use Rattle.std.specs.Prelude.{◌≡◌};
ghost use Rattle.assembler.specs.Answers.{refusal_of, at_line};

use crate::AssembleError;
use statements::LineError;
use text::Outcome;
use text::outcomes::{Refusal, refused};

impl Refusal for AssembleError {
    ghost refusal = { refusal_of };

    fn outcome(self) -> Outcome {
        match self {
            AssembleError::WrongLength => refused(1, 0),
            AssembleError::BadBytes(line) => refused(2, line),
            AssembleError::WrongForm(line) => refused(3, line),
            AssembleError::UnknownName(line) => refused(4, line),
            AssembleError::OutOfRange(line) => refused(5, line),
            AssembleError::DefinedBefore(line) => refused(6, line),
            AssembleError::Undefined(line) => refused(7, line),
            AssembleError::NoPlace(line) => refused(8, line),
        }
    }
}

impl AssembleError {
    // The error of this line.
    pub fn at_line(error: LineError, line: usize) -> AssembleError
        ensures { result ≡ at_line error line }
    {
        match error {
            LineError::BadBytes => AssembleError::BadBytes(line),
            LineError::WrongForm => AssembleError::WrongForm(line),
            LineError::UnknownName => AssembleError::UnknownName(line),
            LineError::OutOfRange => AssembleError::OutOfRange(line),
            LineError::DefinedBefore => AssembleError::DefinedBefore(line),
            LineError::Undefined => AssembleError::Undefined(line),
            LineError::NoPlace => AssembleError::NoPlace(line),
        }
    }
}

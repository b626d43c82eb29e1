// What each error is in numbers.
// Stays (2, 4): each error enum says its own number once, by the trait `Refusal`.
ghost use Rattle.lister.specs.Calls.{refusal_of};

use crate::ListError;
use text::Outcome;
use text::outcomes::{Refusal, refused};

impl Refusal for ListError {
    ghost refusal = { refusal_of };

    fn outcome(self) -> Outcome {
        match self {
            ListError::WrongLength => refused(1, 0),
            ListError::UnknownOpcode(word) => refused(16, word),
            ListError::NoRoom => refused(15, 0),
        }
    }
}

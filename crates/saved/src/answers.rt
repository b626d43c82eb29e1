// What each error is in numbers.
// Stays (2, 4): each error enum says its own number once, by the trait `Refusal`.
ghost use Rattle.saved.specs.Answers.{save_refusal, load_refusal};

use crate::{LoadError, SaveError};
use text::Outcome;
use text::outcomes::{Refusal, refused};

impl Refusal for SaveError {
    ghost refusal = { save_refusal };

    fn outcome(self) -> Outcome {
        match self {
            SaveError::WrongLength => refused(1, 0),
            SaveError::Unsound => refused(13, 0),
        }
    }
}

impl Refusal for LoadError {
    ghost refusal = { load_refusal };

    fn outcome(self) -> Outcome {
        match self {
            LoadError::WrongLength => refused(1, 0),
            LoadError::OtherEdition => refused(14, 0),
            LoadError::Unsound => refused(13, 0),
            LoadError::Busy => refused(20, 0),
        }
    }
}

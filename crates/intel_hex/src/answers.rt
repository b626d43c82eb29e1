// What each refusal of the reader tells.
// Stays (2, 4): each error enum says its own number once, by the trait `Refusal`.
ghost use Rattle.intel_hex.specs.Answers.{hex_refusal};

use crate::HexError;
use text::Outcome;
use text::outcomes::{Refusal, refused};

impl Refusal for HexError {
    ghost refusal = { hex_refusal };

    fn outcome(self) -> Outcome {
        match self {
            HexError::WrongLength => refused(1, 0),
            HexError::BadRecord(line) => refused(17, line),
            HexError::BadType(line) => refused(18, line),
            HexError::BadAddress(line) => refused(19, line),
        }
    }
}

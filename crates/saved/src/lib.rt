// The saved record: edition 2, and edition 1, which is read only. What their bytes are stands in specs/.
#![tactic(auto)]

mod answers;
mod copies;
pub mod fields;
mod fresh;
pub mod layout;
mod loading;
mod saving;
mod sound;

pub use fresh::fresh_record;
pub use loading::{load, loaded_outcome, loaded_record};
pub use saving::save;
pub use sound::{is_possible, is_sound};

// Why a record is not saved.
#[derive(Clone, Copy)]
pub enum SaveError {
    // The lent bytes are not as many as a record has.
    WrongLength,
    // The record is not sound.
    Unsound,
}

// Why a record is not read.
#[derive(Clone, Copy)]
pub enum LoadError {
    // The bytes are not as many as a record of edition 1 or 2 has.
    WrongLength,
    // The bytes name another edition than the one of their length.
    OtherEdition,
    // The record is not sound.
    Unsound,
    // The record is of edition 1, and its disk is busy.
    Busy,
}

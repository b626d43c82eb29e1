// A record read.
// Stays (2, 5, 7): edition 2 asks the bits at the end, edition 1 whether the disk is busy, in an order of questions each; the length tells which.
ghost use Rattle.std.specs.Prelude.{◌≡◌, length};
ghost use Rattle.saved.specs.Answers.{loaded_outcome, loaded_record};
ghost use Rattle.saved.specs.Promises.{Loading};

use crate::LoadError;
use crate::fields::{record_of, record_one};
use crate::fresh::fresh_record;
use crate::layout::{BYTES, BYTES_ONE, EDITION, EDITION_ONE, LAST, WIDTHS, WIDTHS_ONE};
use crate::sound::{is_possible, is_sound};
use machine::Record;
use text::Outcome;
use text::outcomes::{Refusal, accepted};

// Reads a record: 94 bytes of edition 2, or 91 of edition 1 with a free disk.
pub fn load(bytes: &[u8]) -> Result<Record, LoadError>
    ensures { Loading bytes.now result }
{
    match bytes.len() {
        BYTES => load_two(bytes),
        BYTES_ONE => load_one(bytes),
        _ => Err(LoadError::WrongLength),
    }
}

// Reads 94 bytes.
fn load_two(bytes: &[u8]) -> Result<Record, LoadError>
    requires { length bytes.now ≡ 94 }
    ensures { Loading bytes.now result }
{
    let mut f: [u64; 45] = [0; 45];
    bitpack::unpack(&WIDTHS, bytes, &mut f);
    if f[0] != EDITION {
        return Err(LoadError::OtherEdition);
    }
    if f[LAST] != 0 {
        return Err(LoadError::Unsound);
    }
    let state = record_of(f);
    if !is_possible(state) {
        return Err(LoadError::Unsound);
    }
    Ok(state)
}

// Reads 91 bytes.
fn load_one(bytes: &[u8]) -> Result<Record, LoadError>
    requires { length bytes.now ≡ 91 }
    ensures { Loading bytes.now result }
{
    let mut f: [u64; 43] = [0; 43];
    bitpack::unpack(&WIDTHS_ONE, bytes, &mut f);
    if f[0] != EDITION_ONE {
        return Err(LoadError::OtherEdition);
    }
    let state = record_one(f);
    if !is_sound(state) {
        return Err(LoadError::Unsound);
    }
    if f[5] != 0 {
        return Err(LoadError::Busy);
    }
    Ok(state)
}

// The record to go on with: the one that was read, or the fresh one where it is refused.
pub fn loaded_record(answer: Result<Record, LoadError>) -> Record
    ensures { result ≡ loaded_record answer }
{
    match answer {
        Ok(state) => state,
        Err(_) => fresh_record(),
    }
}

// What reading a record answers, in numbers.
pub fn loaded_outcome(answer: Result<Record, LoadError>) -> Outcome
    ensures { result ≡ loaded_outcome answer }
{
    match answer {
        Ok(_) => accepted(0),
        Err(error) => error.outcome(),
    }
}

// A record saved.
// Stays (2): bench_saved has the save as it was before, to measure both.
ghost use Rattle.saved.specs.Promises.{Saving};

use crate::SaveError;
use crate::fields::fields;
use crate::layout::{BYTES, WIDTHS};
use crate::sound::is_sound_with;
use bitpack::pack;
use machine::Record;

// Saves a record in 94 bytes, as edition 2. A refusal changes nothing.
pub fn save(r: Record, bytes: &mut [u8]) -> Result<(), SaveError>
    ensures { Saving r bytes.old result bytes.new }
{
    if bytes.len() != BYTES {
        return Err(SaveError::WrongLength);
    }
    let f = fields(r);
    if !is_sound_with(r, f) {
        return Err(SaveError::Unsound);
    }
    pack(&WIDTHS, &f, bytes);
    Ok(())
}

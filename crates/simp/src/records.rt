// Records saved and read.
ghost use Rattle.simp.specs.Records.{Saves, Loads};

use crate::WRONG_LENGTH;
use crate::numbers::{RECORD_NUMBERS, put_numbers, record_of};
use saved::{load, loaded_outcome, loaded_record, save};
use text::outcomes::done;

// Saves the record of 40 numbers in 94 bytes.
pub fn simp_save(numbers: &[u64], bytes: &mut [u8]) -> u32
    ensures { Saves numbers.now bytes.old result bytes.new }
{
    if numbers.len() != RECORD_NUMBERS {
        return WRONG_LENGTH;
    }
    done(save(record_of(numbers), bytes)).number
}

// Reads 94 bytes of edition 2, or 91 of edition 1, into the 40 numbers of a record.
pub fn simp_load(bytes: &[u8], numbers: &mut [u64]) -> u32
    ensures { Loads bytes.now numbers.old result numbers.new }
{
    if numbers.len() != RECORD_NUMBERS {
        return WRONG_LENGTH;
    }
    let answer = load(bytes);
    put_numbers(loaded_record(answer), numbers);
    loaded_outcome(answer).number
}

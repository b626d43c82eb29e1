// A record and its 40 numbers.
// Stays (1, 4, 5, 6): the C interface has a record as 40 numbers; one that is too wide is refused as unsound after the questions before it, in the documents' order.
ghost use Rattle.std.specs.Prelude.{◌≡◌, false, length};
ghost use Rattle.saved.specs.Sound.{is_sound};
ghost use Rattle.simp.specs.Numbers.{record_numbers, numbers_of, StandsFor};

use bitpack::all_fit;
use machine::Record;
use saved::fields::fields;
use saved::fresh_record;
use saved::layout::{EDITION, WIDTHS};

// How many numbers a record is.
pub const RECORD_NUMBERS: usize = 40;

// The record of 40 numbers; one that is not sound where a number is too wide for its field.
pub fn record_of(numbers: &[u64]) -> Record
    requires { length numbers.now ≡ record_numbers }
    ensures { StandsFor numbers.now result }
{
    let mut f: [u64; 45] = [0; 45];
    f[0] = EDITION;
    f[1..39].copy_from_slice(&numbers[..38]);
    f[41..43].copy_from_slice(&numbers[38..]);
    let widths = WIDTHS;
    if !all_fit(&widths, &f) {
        return unsound_record();
    }
    saved::fields::record_of(f)
}

// A record that is not sound: its status is 6.
fn unsound_record() -> Record
    ensures { is_sound result ≡ false }
{
    let mut r = fresh_record();
    r.core.status = 6;
    r
}

// Sets 40 numbers to those of a record.
pub fn put_numbers(r: Record, numbers: &mut [u64])
    requires { length numbers.old ≡ record_numbers }
    ensures { numbers.new ≡ numbers_of r }
{
    let f = fields(r);
    numbers[..38].copy_from_slice(&f[1..39]);
    numbers[38..].copy_from_slice(&f[41..43]);
}

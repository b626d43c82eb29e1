// The save as it was before change (iii), of edition 2: the packer that builds the bytes one at a time, and the test of widths that asks all and ends
// at the first that does not fit. Kept for bench/ only.
// Stays (2, 3, 6): the save as it was before change (iii), which bench/ measures beside the new one; a turn takes a byte out or a value in.
ghost use Rattle.std.specs.Prelude.{◌≡◌, ◌^◌, ltb, length};
ghost use Rattle.bitpack.specs.Packed.{fit, packed, bytes_of};
ghost use Rattle.bitpack.specs.Needs.{Packs};
ghost use Rattle.saved.specs.Promises.{Saving};

use bitpack::bits::{append, low_byte};
use machine::Record;
use saved::fields::fields;
use saved::layout::{BYTES, WIDTHS};
use saved::{SaveError, is_possible};

// Saves a record in 94 bytes. A refusal changes nothing.
pub fn save_by_bytes(r: Record, bytes: &mut [u8]) -> Result<(), SaveError>
    ensures { Saving r bytes.old result bytes.new }
{
    if bytes.len() != BYTES {
        return Err(SaveError::WrongLength);
    }
    let widths = WIDTHS;
    let f = fields(r);
    if !all_fit_ending_early(&widths, &f) {
        return Err(SaveError::Unsound);
    }
    if !is_possible(r) {
        return Err(SaveError::Unsound);
    }
    pack_bytes(&widths, &f, bytes);
    Ok(())
}

// Whether a value fits a width.
fn fits_width(w: u64, v: u64) -> bool
    ensures { result ≡ ltb v (2 ^ w) }
{
    w >= 64 || (v >> w) == 0
}

// Whether there are as many values as widths and each fits its width.
fn all_fit_ending_early(widths: &[u8], values: &[u64]) -> bool
    ensures { result ≡ fit widths.now values.now }
{
    if widths.len() != values.len() {
        return false;
    }
    for (i, width) in widths.iter().enumerate() {
        if !fits_width(u64::from(*width), values[i]) {
            return false;
        }
    }
    true
}

// Packs values into bytes, which they fill. A turn takes a byte out or a value in, so no loop over one of them is plainer. Above the bits that are held stand some that came out already.
fn pack_bytes(widths: &[u8], values: &[u64], out: &mut [u8])
    requires { Packs widths.now values.now (length out.old) }
    ensures { out.new ≡ bytes_of (length out.old) (packed widths.now values.now) }
{
    let mut acc: u64 = 0;
    let mut have: u64 = 0;
    let mut i: usize = 0;
    let mut n: usize = 0;
    while n < out.len() {
        if 8 <= have {
            have -= 8;
            out[n] = low_byte(acc >> have);
            n += 1;
        } else {
            let w = u64::from(widths[i]);
            acc = append(acc, w, values[i]);
            have += w;
            i += 1;
        }
    }
}

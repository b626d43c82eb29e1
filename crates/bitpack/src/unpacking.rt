// Values taken out of bytes, which are read a word at a time.
// Stays (3, 6): a turn takes a value out or bytes in; the widths are a table of a format, the values are of one record.
ghost use Rattle.std.specs.Prelude.{◌≡◌, ◌&&◌, ltb, leb, length};
ghost use Rattle.bitpack.specs.Packed.{unpacked, number_of};
ghost use Rattle.bitpack.specs.Needs.{Unpacks};

use crate::bits::{append, low};
use crate::word::word_at;

// Takes the values out of bytes, which they fill. A turn takes a value out or bytes in, so no loop over one of them is plainer.
pub fn unpack(widths: &[u8], bytes: &[u8], values: &mut [u64])
    requires { Unpacks widths.now (length bytes.now) (length values.old) }
    ensures { values.new ≡ unpacked widths.now (number_of bytes.now) }
{
    let mut acc: u64 = 0;
    let mut have: u64 = 0;
    let mut i: usize = 0;
    let mut n: usize = 0;
    while n < values.len() {
        let w = u64::from(widths[n]);
        if w <= have {
            have -= w;
            values[n] = acc >> have;
            acc = low(acc, have);
            n += 1;
        } else if takes_word(have, bytes.len() - i) {
            acc = append(acc, 32, word_at(bytes, i));
            have += 32;
            i += 4;
        } else {
            acc = append(acc, 8, u64::from(bytes[i]));
            have += 8;
            i += 1;
        }
    }
}

// Whether a word is left to read, and 64 bits hold it beside those that are held.
fn takes_word(have: u64, left: usize) -> bool
    ensures { result ≡ (ltb have 32 && leb 4 left) }
{
    have < 32 && 4 <= left
}

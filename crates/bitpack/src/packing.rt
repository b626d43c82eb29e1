// Values packed into bytes, a word at a time.
// Stays (2, 3, 5, 6): words come out before the bytes left over, each by its own law; widths are a table of a format, values are of one record (FormatLaws).
// Stays (4): the bytes go to a place of the lent record, where `to_be_bytes` would make an array and then copy it.
ghost use Rattle.std.specs.Prelude.{◌≡◌, length};
ghost use Rattle.bitpack.specs.Packed.{packed, bytes_of};
ghost use Rattle.bitpack.specs.Needs.{Packs};

use crate::bits::{append, low_byte};
use crate::word::put_word;

// Packs values into bytes, which they fill: whole words, then the bytes left over. `acc` ends with the bits that went in and did not come out, `have` of
// them; above them stand some that came out already, which may fall off. A value is cut where a word ends; a wide one may complete two words.
pub fn pack(widths: &[u8], values: &[u64], out: &mut [u8])
    requires { Packs widths.now values.now (length out.old) }
    ensures { out.new ≡ bytes_of (length out.old) (packed widths.now values.now) }
{
    let mut acc: u64 = 0;
    let mut have: u64 = 0;
    let mut k: usize = 0;
    for (i, width) in widths.iter().enumerate() {
        let w = u64::from(*width);
        let v = values[i];
        have += w;
        if have < 32 {
            acc = append(acc, w, v);
        } else if have < 64 {
            have -= 32;
            put_word(widths, values, i, acc, have, k, out);
            k += 1;
            acc = v;
        } else {
            have -= 64;
            put_word(widths, values, i, acc, have + 32, k, out);
            put_word(widths, values, i, acc, have, k + 1, out);
            k += 2;
            acc = v;
        }
    }
    put_low_bytes(&mut out[4 * k..], acc);
}

// Puts the low bytes of a number, as many as there is room for.
fn put_low_bytes(out: &mut [u8], x: u64)
    ensures { out.new ≡ bytes_of (length out.old) x }
{
    let mut rest = x;
    for n in (0..out.len()).rev() {
        out[n] = low_byte(rest);
        rest = rest >> 8;
    }
}

// Words of 32 bits: four bytes, most significant first.
// Stays (2, 4, 6): the law speaks of bits appended byte by byte (`word_read`); from_be_bytes takes an array, so bytes would be copied first.
ghost use Rattle.std.specs.Prelude.{◌≡◌, suc, ◌+◌, ◌-◌, ◌*◌, ◌≤◌, length, drop};
ghost use Rattle.text.specs.Place.{put};
ghost use Rattle.bitpack.specs.Bits.{bits};
ghost use Rattle.bitpack.specs.Packed.{total, packed, bytes_of, number_of};
ghost use Rattle.bitpack.specs.Words.{word_of};
ghost use Rattle.bitpack.specs.Needs.{Completes};

use crate::bits::{append, low_byte};

// The word that value i completes: its 32 bits of the packed number, of which value i without its last bits has the lowest, and what is held the others.
fn make_word(widths: &[u8], values: &[u64], i: usize, held: u64, last: u64) -> u32
    requires { Completes widths.now values.now i held last }
    ensures { result ≡ bits (packed widths.now values.now) (last + total (drop (suc i) widths.now)) 32 }
{
    (append(held, u64::from(widths[i]) - last, values[i] >> last) % 0x1_0000_0000) as u32
}

// Puts word k of the packed values, which value i completes, at its place.
pub fn put_word(
    widths: &[u8],
    values: &[u64],
    i: usize,
    held: u64,
    last: u64,
    k: usize,
    out: &mut [u8],
)
    requires { Completes widths.now values.now i held last × (32 * suc k + last + total (drop (suc i) widths.now) ≡ total widths.now) × (4 * k + 4 ≤ length out.old) }
    ensures { out.new ≡ put out.old (4 * k) (bytes_of 4 (word_of widths.now values.now k)) }
{
    put_four(
        out,
        4 * k,
        u64::from(make_word(widths, values, i, held, last)),
    );
}

// Puts the four low bytes of a number.
fn put_four(out: &mut [u8], at: usize, x: u64)
    requires { at + 4 ≤ length out.old }
    ensures { out.new ≡ put out.old at (bytes_of 4 x) }
{
    out[at] = low_byte(x >> 24);
    out[at + 1] = low_byte(x >> 16);
    out[at + 2] = low_byte(x >> 8);
    out[at + 3] = low_byte(x);
}

// The word that begins with byte i: its 32 bits of the number of the bytes.
pub fn word_at(bytes: &[u8], i: usize) -> u64
    requires { i + 4 ≤ length bytes.now }
    ensures { result ≡ bits (number_of bytes.now) (8 * (length bytes.now - (i + 4))) 32 }
{
    let two = append(u64::from(bytes[i]), 8, u64::from(bytes[i + 1]));
    let three = append(two, 8, u64::from(bytes[i + 2]));
    append(three, 8, u64::from(bytes[i + 3]))
}

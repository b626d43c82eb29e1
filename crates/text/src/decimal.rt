// Decimals, with a number of digits or without leading zeros.
// Stays (2, 3, 4, 5): a word's digits go two at a time, which the log's lines need to be fast; the count is two matches, since one is over 40 lines; the text goes to
// a place of a lent buffer (no heap), and its contract says which bytes.
ghost use Rattle.std.specs.Prelude.{◌≡◌, ◌+◌, ◌/◌, ◌^◌, ◌≤◌, ◌<◌, length};
ghost use Rattle.text.specs.Numerals.{digit_count, digits, decimal, low_bytes};
ghost use Rattle.text.specs.Place.{put};

use crate::Taken;
use crate::digits::digit;

// How many digits v has in decimal; 20 at most, as callers want to know.
pub fn digit_count(v: u64) -> usize
    ensures { (result ≡ digit_count 10 v) × (result ≤ 20) }
{
    match v {
        0..=9 => 1,
        10..=99 => 2,
        100..=999 => 3,
        1_000..=9_999 => 4,
        10_000..=99_999 => 5,
        100_000..=999_999 => 6,
        1_000_000..=9_999_999 => 7,
        10_000_000..=99_999_999 => 8,
        100_000_000..=999_999_999 => 9,
        1_000_000_000..=9_999_999_999 => 10,
        _ => long_digit_count(v),
    }
}

// The same of a number with more than ten digits.
fn long_digit_count(v: u64) -> usize
    requires { 10 ^ 10 ≤ v }
    ensures { (result ≡ digit_count 10 v) × (result ≤ 20) }
{
    match v {
        0..=99_999_999_999 => 11,
        100_000_000_000..=999_999_999_999 => 12,
        1_000_000_000_000..=9_999_999_999_999 => 13,
        10_000_000_000_000..=99_999_999_999_999 => 14,
        100_000_000_000_000..=999_999_999_999_999 => 15,
        1_000_000_000_000_000..=9_999_999_999_999_999 => 16,
        10_000_000_000_000_000..=99_999_999_999_999_999 => 17,
        100_000_000_000_000_000..=999_999_999_999_999_999 => 18,
        1_000_000_000_000_000_000..=9_999_999_999_999_999_999 => 19,
        _ => 20,
    }
}

// Puts v in decimal at a place and returns the place after it.
pub fn put_decimal(out: &mut [u8], at: usize, v: u64) -> usize
    requires { at + digit_count 10 v ≤ length out.old }
    ensures { (out.new ≡ put out.old at (decimal v)) × (result ≡ at + digit_count 10 v) }
{
    let n = digit_count(v);
    match u32::try_from(v) {
        Ok(word) => put_word_digits(out, at, n, word),
        Err(_) => put_decimal_digits(out, at, n, v),
    }
    at + n
}

// Puts the k low decimal digits of a word at a place, two at a time.
fn put_word_digits(out: &mut [u8], at: usize, k: usize, v: u32)
    requires { at + k ≤ length out.old }
    ensures { out.new ≡ put out.old at (digits 10 k v) }
{
    let mut left = k;
    let mut rest = v;
    while 2 <= left {
        left -= 2;
        put_two_digits(out, at + left, rest % 100);
        rest = rest / 100;
    }
    if left == 1 {
        out[at] = digit((rest % 10) as u8);
    }
}

// Puts the two decimal digits of a number below 100 at a place.
fn put_two_digits(out: &mut [u8], at: usize, n: u32)
    requires { (at + 2 ≤ length out.old) × (n < 100) }
    ensures { out.new ≡ put out.old at (digits 10 2 n) }
{
    out[at] = digit((n / 10) as u8);
    out[at + 1] = digit((n % 10) as u8);
}

// Puts the k low decimal digits of v at a place.
pub fn put_decimal_digits(out: &mut [u8], at: usize, k: usize, v: u64)
    requires { at + k ≤ length out.old }
    ensures { out.new ≡ put out.old at (digits 10 k v) }
{
    let mut rest = v;
    for i in (0..k).rev() {
        out[at + i] = digit((rest % 10) as u8);
        rest = rest / 10;
    }
}

// The k low decimal digits of v in a number, the first in its low byte, and what is left of v without them.
pub fn take_digits(v: u64, k: usize) -> Taken
    requires { k ≤ 8 }
    ensures { (low_bytes k result.held ≡ digits 10 k v) × ((result.held < 256 ^ k) × (result.rest ≡ v / 10 ^ k)) }
{
    let mut held = 0;
    let mut rest = v;
    for _ in 0..k {
        held = held * 256 + (48 + rest % 10);
        rest = rest / 10;
    }
    Taken { held, rest }
}

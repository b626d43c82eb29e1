// Tokens that are numbers.
ghost use Rattle.std.specs.Prelude.{◌≡◌, ◌^◌, ◌≤◌, ◌<◌};
ghost use Rattle.source.specs.Numbers.{digits_up_to, decimal_number, prefix_of, number};

use crate::{Number, Prefix};
use text::digits::DigitTable;
use text::same::begins_with;

// The most digits of a number.
const DECIMAL_DIGITS: usize = 10;

const HEXADECIMAL_DIGITS: usize = 8;

const BINARY_DIGITS: usize = 32;

// The number that a token is, if it is one.
pub fn read_number(t: &[u8], values: &DigitTable) -> Option<Number>
    ensures { result ≡ number t.now }
{
    match prefix_of(t) {
        Some(p) => digits_up_to(&t[2..], p.base, p.most, values).map(Number::Unsigned),
        None => read_decimal(t, values),
    }
}

// The prefix of a token, if it has one.
fn prefix_of(t: &[u8]) -> Option<Prefix>
    ensures { result ≡ prefix_of t.now }
{
    if begins_with(t, b"0x") {
        return Some(Prefix {
            base: 16,
            most: HEXADECIMAL_DIGITS,
        });
    }
    if begins_with(t, b"0b") {
        return Some(Prefix {
            base: 2,
            most: BINARY_DIGITS,
        });
    }
    None
}

// The decimal number that a token without a prefix is, if it is one.
fn read_decimal(t: &[u8], values: &DigitTable) -> Option<Number>
    ensures { result ≡ decimal_number t.now }
{
    if begins_with(t, b"-") {
        return digits_up_to(&t[1..], 10, DECIMAL_DIGITS, values).map(Number::Minus);
    }
    digits_up_to(t, 10, DECIMAL_DIGITS, values).map(Number::Decimal)
}

// Reads digits of a base, 1 to `most` of them.
fn digits_up_to(s: &[u8], base: u64, most: usize, values: &DigitTable) -> Option<u64>
    requires base { base ≤ 16 }
    requires room { base ^ most ≤ 2 ^ 64 }
    requires some { 0 < base }
    ensures { result ≡ digits_up_to base most s.now }
{
    if s.is_empty() || most < s.len() {
        return None;
    }
    values.read_digits(s, base)
}

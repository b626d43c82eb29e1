// Numbers in range, and what is stored of them.
// Stays (1): what is no number has been refused before (question 3), and the definitions `is_within` and `modulo` say this of it.
ghost use Rattle.std.specs.Prelude.{◌≡◌, ◌<◌};
ghost use Rattle.lines.specs.Ranges.{is_within, modulo as modulo_of};

use source::Number;

// Whether a number is at least -below and, a decimal, at most `decimal` or, of another form, at most `other`; true of what is no number.
pub fn is_within(n: Option<Number>, below: u64, decimal: u64, other: u64) -> bool
    ensures { result ≡ is_within below decimal other n }
{
    match n {
        Some(Number::Decimal(v)) => v <= decimal,
        Some(Number::Minus(v)) => v <= below,
        Some(Number::Unsigned(v)) => v <= other,
        None => true,
    }
}

// A number modulo m; 0 of what is no number.
pub fn modulo(n: Option<Number>, m: u64) -> u64
    requires { 0 < m }
    ensures below { result < m }
    ensures value { result ≡ modulo_of m n }
{
    match n {
        Some(Number::Decimal(v)) => v % m,
        Some(Number::Minus(v)) => (m - v % m) % m,
        Some(Number::Unsigned(v)) => v % m,
        None => 0,
    }
}

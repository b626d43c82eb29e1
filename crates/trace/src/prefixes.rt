// The prefix of the lines H, L and D, in numbers that are valid for up to a hundred cycles.
// Stays (1, 4, 5): the letter is the byte that the line begins with; the text goes to a place of the lent log (no heap).
ghost use Rattle.std.specs.Prelude.{◌≡◌, cond, List, ◌++◌, ℕ, ◌+◌, ◌-◌, ◌*◌, ◌/◌, ◌%◌, ◌^◌, ◌≤◌, ◌<◌, ltb, length, take};
ghost use Rattle.text.specs.Numerals.{digit, digits as digits_of, digit_count, low_bytes};
ghost use Rattle.text.specs.Place.{put};
ghost use Rattle.trace.specs.Prefixes.{cycle_prefix, GivesEach};

use text::decimal::{digit_count, take_digits};
use text::hex_words::{HexTable, put_eight, put_two};

// A blank in the second byte of a number.
const BLANK: u64 = 0x2000;

// The prefix of the lines H, L and D, their letter and the cycle, but for its last two characters. It is valid for up to a hundred cycles.
#[derive(Drop)]
pub struct Prefix {
    // The first cycle that it is valid for, and the one after the last.
    pub first: u64,
    pub until: u64,
    // The last two characters of a cycle's prefix are the two digits of what it is above this, ..
    pub base: u64,
    // .. the first of them lowered by this: a 0 becomes a blank in the prefix of a cycle of one digit.
    pub lowered: u64,
    // How many bytes stand before them, the line's letter among them.
    pub count: u64,
    // These bytes, the first in the low byte of the first number; where the letter goes there is 0.
    pub held: u64,
    pub more: u64,
    pub ghost valid: { GivesEach first until base lowered count held more },
}

impl Prefix {
    ghost use Rattle.trace.specs.ValidPrefixes.{ValidFor};

    // A prefix that is valid for no cycle.
    pub fn none() -> Prefix
        ensures { result.until ≡ 0 }
    {
        Prefix {
            first: 0,
            until: 0,
            base: 0,
            lowered: 0,
            count: 0,
            held: 0,
            more: 0,
        }
    }

    // Makes the prefix valid for the cycle c: the old one stays, or one is made anew.
    pub fn update(&mut self, c: u64)
        requires { c < 2 ^ 40 }
        ensures { ValidFor c self.new }
    {
        if c < self.first || self.until <= c {
            *self = prefix_of(c);
        }
    }

    // Puts the letter of a line and the cycle c at a place, and returns the place after them. Up to five bytes after that place are written too: what is put next goes over them.
    pub fn put_cycle(
        &self,
        out: &mut [u8],
        at: usize,
        letter: u8,
        c: u64,
        table: &HexTable,
    ) -> usize
        requires { (at + digit_count 10 c + 7 ≤ length out.old) × ValidFor c self.now }
        ensures { (result ≡ at + 2 + digit_count 10 c) × ((rest : List ℕ) → 5 ≤ length rest → put out.new result rest ≡ put out.old at (cycle_prefix letter c ++ rest)) }
    {
        let count = self.count as usize;
        let last = last_two(c - self.base, self.lowered, table);
        put_eight(out, at, self.held + u64::from(letter));
        put_more(out, at, count, self.more);
        put_two(out, at + count, last);
        at + count + 2
    }
}

// The prefix that is valid for the cycle c.
fn prefix_of(c: u64) -> Prefix
    requires { c < 2 ^ 40 }
    ensures { (result.first ≤ c) × (c < result.until) }
{
    if c < 10 {
        return Prefix {
            first: 0,
            until: 10,
            base: 0,
            lowered: 16,
            count: 1,
            held: 0,
            more: 0,
        };
    }
    if c < 100 {
        return Prefix {
            first: 10,
            until: 100,
            base: 0,
            lowered: 0,
            count: 2,
            held: BLANK,
            more: 0,
        };
    }
    prefix_of_hundred(c / 100)
}

// The prefix of the hundred cycles that begin with these digits.
fn prefix_of_hundred(digits: u64) -> Prefix
    requires { (1 ≤ digits) × (digits < 10 ^ 11) }
    ensures { (result.first ≡ digits * 100) × (result.until ≡ digits * 100 + 100) }
{
    let n = digit_count(digits);
    if n <= 6 {
        let all = take_digits(digits, n);
        return hundred_cycles(digits, n, all.held, 0);
    }
    let last = take_digits(digits, n - 6);
    let first = take_digits(last.rest, 6);
    hundred_cycles(digits, n, first.held, last.held)
}

// The prefix of a hundred cycles that begin with these n digits, which two numbers hold: six at most the first, and those after them the other.
fn hundred_cycles(digits: u64, n: usize, held: u64, more: u64) -> Prefix
    requires some { (1 ≤ digits) × (digits < 10 ^ 11) }
    requires counted { (n ≡ digit_count 10 digits) × (n ≤ 11) }
    requires fits { held < 256 ^ 6 }
    requires hold { take n (low_bytes 6 held ++ low_bytes 8 more) ≡ digits_of 10 n digits }
    ensures { (result.first ≡ digits * 100) × (result.until ≡ digits * 100 + 100) }
{
    Prefix {
        first: digits * 100,
        until: digits * 100 + 100,
        base: digits * 100,
        lowered: 0,
        count: n as u64 + 2,
        held: held * 0x1_0000 + BLANK,
        more,
    }
}

// Puts what is held beyond eight bytes, if there are so many.
fn put_more(out: &mut [u8], at: usize, count: usize, more: u64)
    requires { 8 < count → at + 16 ≤ length out.old }
    ensures { out.new ≡ cond (ltb 8 count) (put out.old (at + 8) (low_bytes 8 more)) out.old }
{
    if 8 < count {
        put_eight(out, at + 8, more);
    }
}

// The two decimal digits of a number below 100 in a number, the first of them lowered: they are the hexadecimal digits of another.
fn last_two(n: u64, lowered: u64, table: &HexTable) -> u64
    requires { (n < 100) × (lowered ≤ 16) }
    ensures { result ≡ digit (n / 10) + digit (n % 10) * 256 - lowered }
{
    table.pair(0, (n + n / 10 * 6) as u8) - lowered
}

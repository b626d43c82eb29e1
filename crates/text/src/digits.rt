// Digits of a base from 2 to 16, one by one and by tables that are filled once and lent.
// Stays (1, 2, 3, 4, 5): 16 is no digit of any base, so one test a byte asks for it; digits go by pairs to a place of a lent buffer (no heap) whose bytes the contract
// states; the loops that fill a table store at the place that the entry is about.
ghost use Rattle.std.specs.Prelude.{◌≡◌, true, ◌+◌, ◌*◌, ◌/◌, ◌%◌, ◌^◌, ◌≤◌, ◌<◌, length, get_or};
ghost use Rattle.text.specs.Numerals.{digit as digit_of, digit_value, digits, all_digits, value, numeral, DigitValues, HexPairs};
ghost use Rattle.text.specs.Place.{put};

// A letter's byte less what it is worth as a digit, for capitals and for small letters.
const CAPITAL: u8 = b'A' - 10;

const SMALL: u8 = b'a' - 10;

// The byte of a digit from 0 to 15, in capitals.
pub fn digit(v: u8) -> u8
    requires { v < 16 }
    ensures { result ≡ digit_of v }
{
    if v < 10 { b'0' + v } else { CAPITAL + v }
}

// What a byte is worth as a digit, letters of either case; 16 where it is none.
pub fn digit_value(c: u8) -> u8
    ensures { result ≡ digit_value c }
{
    match c {
        b'0'..=b'9' => c - b'0',
        b'A'..=b'F' => c - CAPITAL,
        b'a'..=b'f' => c - SMALL,
        _ => 16,
    }
}

// What each byte is worth as a digit, in a table that is filled once and lent.
#[derive(Drop)]
pub struct DigitTable {
    pub values: [u8; 256],
    pub ghost filled: { DigitValues values },
}

// The two hexadecimal digits of each byte, in a table that is filled once and lent.
#[derive(Drop)]
pub struct PairTable {
    pub pairs: [u16; 256],
    pub ghost filled: { HexPairs pairs },
}

impl DigitTable {
    // The table.
    pub fn new() -> DigitTable {
        DigitTable {
            values: digit_values(),
        }
    }

    // What a byte is worth as a digit; 16 where it is none.
    pub fn value(&self, c: u8) -> u64
        ensures { result ≡ digit_value c }
    {
        u64::from(self.values[usize::from(c)])
    }

    // Whether all bytes of a part are digits of a base.
    pub fn all_digits(&self, s: &[u8], base: u64) -> bool
        requires { base ≤ 16 }
        ensures { result ≡ all_digits base s.now }
    {
        s.iter().all(|c| self.value(*c) < base)
    }

    // The number that the digits of a part stand for.
    pub fn value_of(&self, s: &[u8], base: u64) -> u64
        requires { (all_digits base s.now ≡ true) × (base ^ length s.now ≤ 2 ^ 64) }
        ensures { result ≡ value base s.now }
    {
        let mut acc = 0;
        for c in s {
            let v = self.value(*c);
            acc = acc * base + v;
        }
        acc
    }

    // Reads all bytes of a part as digits of a base; no bytes at all read as 0.
    pub fn read_digits(&self, s: &[u8], base: u64) -> Option<u64>
        requires { (base ≤ 16) × (base ^ length s.now ≤ 2 ^ 64) }
        ensures { result ≡ numeral base s.now }
    {
        let mut acc = 0;
        for c in s {
            let d = self.value(*c);
            if base <= d {
                return None;
            }
            acc = acc * base + d;
        }
        Some(acc)
    }
}

impl PairTable {
    // The table.
    pub fn new() -> PairTable {
        PairTable { pairs: hex_pairs() }
    }

    // Puts the two hexadecimal digits of a byte at a place.
    pub fn put_pair(&self, out: &mut [u8], at: usize, n: u8)
        requires { at + 2 ≤ length out.old }
        ensures { out.new ≡ put out.old at (digits 16 2 n) }
    {
        let pair = self.pairs[usize::from(n)];
        out[at] = (pair % 256) as u8;
        out[at + 1] = (pair / 256 % 256) as u8;
    }

    // Puts the k low hexadecimal digits of v at a place.
    pub fn put_hex(&self, out: &mut [u8], at: usize, k: usize, v: u64)
        requires { at + k ≤ length out.old }
        ensures { out.new ≡ put out.old at (digits 16 k v) }
    {
        let mut left = k;
        let mut rest = v;
        while 2 <= left {
            left -= 2;
            self.put_pair(out, at + left, (rest % 256) as u8);
            rest = rest / 256;
        }
        if left == 1 {
            out[at] = digit((rest % 16) as u8);
        }
    }
}

// The entries of the table of what each byte is worth.
fn digit_values() -> [u8; 256]
    ensures { DigitValues result }
{
    let mut table = [0u8; 256];
    for c in 0..=255u8 {
        table[usize::from(c)] = digit_value(c);
    }
    table
}

// The entries of the table of pairs.
fn hex_pairs() -> [u16; 256]
    ensures { HexPairs result }
{
    let mut table = [0u16; 256];
    for n in 0..=255u8 {
        table[usize::from(n)] = hex_pair(n);
    }
    table
}

// The two hexadecimal digits of a byte, the first in the low byte.
pub fn hex_pair(n: u8) -> u16
    ensures { result ≡ digit_of (n / 16) + digit_of (n % 16) * 256 }
{
    u16::from(digit(n / 16)) + u16::from(digit(n % 16)) * 256
}

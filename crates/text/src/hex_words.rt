// Eight hexadecimal digits in one store, by a table in which one sum joins four pairs.
// Stays (2, 3, 4, 5): two and eight bytes are stored at once at a place of a lent buffer, which makes a cycle's line fast; the two loops fill a table at the place that the
// entry is about, a half of what the type's invariant says each.
ghost use Rattle.std.specs.Prelude.{◌≡◌, ◌+◌, ◌*◌, ◌/◌, ◌%◌, ◌^◌, ◌≤◌, ◌<◌, length};
ghost use Rattle.text.specs.Numerals.{digit as digit_of, digits, low_bytes, HexPairs, HexWords};
ghost use Rattle.text.specs.Place.{put};

use crate::digits::hex_pair;

// The two hexadecimal digits of each byte n as a number, and the same moved left by one to three pairs, in a table that is filled once and lent: entry
// 256 * i + n has those of n, moved left by i pairs.
#[derive(Drop)]
pub struct HexTable {
    pub words: [u64; 1024],
    pub ghost filled: { HexWords words },
}

impl HexTable {
    // The table.
    pub fn new() -> HexTable {
        let mut words = [0u64; 1024];
        fill_pairs(&mut words);
        move_pairs(&mut words);
        HexTable { words: words }
    }

    // The two digits of the byte n, the first in the low byte, moved left by i pairs.
    pub fn pair(&self, i: usize, n: u8) -> u64
        requires { i < 4 }
        ensures { result ≡ (digit_of (n / 16) + digit_of (n % 16) * 256) * 65536 ^ i }
    {
        self.words[256 * i + usize::from(n)]
    }

    // The eight hexadecimal digits of a word, the first in the low byte.
    pub fn hex_word(&self, x: u32) -> u64
        ensures { low_bytes 8 result ≡ digits 16 8 x }
    {
        let a = self.pair(0, (x / 0x100_0000) as u8);
        let b = self.pair(1, (x / 0x1_0000 % 256) as u8);
        let c = self.pair(2, (x / 256 % 256) as u8);
        let d = self.pair(3, (x % 256) as u8);
        join(a, b, c, d)
    }

    // Puts the two hexadecimal digits of a byte at a place.
    pub fn put_hex_byte(&self, out: &mut [u8], at: usize, n: u8)
        requires { at + 2 ≤ length out.old }
        ensures { out.new ≡ put out.old at (digits 16 2 n) }
    {
        put_two(out, at, self.pair(0, n));
    }

    // Puts the eight hexadecimal digits of a word at a place.
    pub fn put_hex_word(&self, out: &mut [u8], at: usize, x: u32)
        requires { at + 8 ≤ length out.old }
        ensures { out.new ≡ put out.old at (digits 16 8 x) }
    {
        put_eight(out, at, self.hex_word(x));
    }
}

// Fills the first quarter: the pairs.
fn fill_pairs(words: &mut [u64; 1024])
    requires { length words.old ≡ 1024 }
    ensures { (length words.new ≡ 1024) × HexPairs words.new }
{
    for n in 0..=255u8 {
        words[usize::from(n)] = u64::from(hex_pair(n));
    }
}

// Fills the other quarters: each is the one before it, moved.
fn move_pairs(words: &mut [u64; 1024])
    requires { (length words.old ≡ 1024) × HexPairs words.old }
    ensures { HexWords words.new }
{
    for n in 256..1024 {
        words[n] = moved(words[n - 256]);
    }
}

// An entry moved left by a pair.
fn moved(x: u64) -> u64
    requires { x < 65536 ^ 3 }
    ensures { result ≡ x * 65536 }
{
    x * 0x1_0000
}

// Entries that have no byte in common: the sum has the bytes of all.
fn join(a: u64, b: u64, c: u64, d: u64) -> u64
    requires { a + b + c + d < 2 ^ 64 }
    ensures { result ≡ a + b + c + d }
{
    a + b + c + d
}

// Puts the eight bytes of a number at a place, the lowest first: they become one store.
pub fn put_eight(out: &mut [u8], at: usize, v: u64)
    requires { at + 8 ≤ length out.old }
    ensures { out.new ≡ put out.old at (low_bytes 8 v) }
{
    put_two(out, at, v);
    put_two(out, at + 2, v / 0x1_0000);
    put_two(out, at + 4, v / 0x1_0000_0000);
    put_two(out, at + 6, v / 0x1_0000_0000_0000);
}

// Puts the two low bytes of a number at a place, the lowest first.
pub fn put_two(out: &mut [u8], at: usize, v: u64)
    requires { at + 2 ≤ length out.old }
    ensures { out.new ≡ put out.old at (low_bytes 2 v) }
{
    out[at] = (v % 256) as u8;
    out[at + 1] = (v / 256 % 256) as u8;
}

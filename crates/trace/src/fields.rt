// Fields of a line: a space, and what stands after it.
// Stays (1, 2, 4): each field is put at a place of the lent log (no heap), and each differs in what its bytes are; the register's number is the one that a program computed.
ghost use Rattle.std.specs.Prelude.{◌≡◌, [], ◌∷◌, ◌++◌, ◌+◌, ◌≤◌, length};
ghost use Rattle.text.specs.Lines.{LF as lf};
ghost use Rattle.text.specs.Numerals.{digits, low_bytes};
ghost use Rattle.text.specs.Place.{put};
ghost use Rattle.isa.specs.Registers.{io_name};
ghost use Rattle.trace.specs.LogLines.{field};

use names::put_io_name;
use text::hex_words::{HexTable, put_eight};
use text::lines::LF;

// A word in hexadecimal; returns the place after it.
pub fn put_word(out: &mut [u8], at: usize, x: u32, table: &HexTable) -> usize
    requires { at + 9 ≤ length out.old }
    ensures { (out.new ≡ put out.old at (field (digits 16 8 x))) × (result ≡ at + 9) }
{
    out[at] = b' ';
    table.put_hex_word(out, at + 1, x);
    at + 9
}

// Eight digits, held by a number, that end their line; returns the place after the LF.
pub fn put_last_digits(out: &mut [u8], at: usize, held: u64) -> usize
    requires { at + 10 ≤ length out.old }
    ensures { (out.new ≡ put out.old at (field (low_bytes 8 held) ++ (lf ∷ []))) × (result ≡ at + 10) }
{
    let end = put_digits(out, at, held);
    out[end] = LF;
    end + 1
}

// Eight digits that a number holds; returns the place after them.
fn put_digits(out: &mut [u8], at: usize, held: u64) -> usize
    requires { at + 9 ≤ length out.old }
    ensures { (out.new ≡ put out.old at (field (low_bytes 8 held))) × (result ≡ at + 9) }
{
    out[at] = b' ';
    put_eight(out, at + 1, held);
    at + 9
}

// The name of an I/O register; returns the place after it.
pub fn put_name(out: &mut [u8], at: usize, n: u32) -> usize
    requires { at + 1 + length (io_name n) ≤ length out.old }
    ensures { (out.new ≡ put out.old at (field (io_name n))) × (result ≡ at + 1 + length (io_name n)) }
{
    out[at] = b' ';
    put_io_name(out, at + 1, n)
}

// The name of an I/O register, and eight digits, held by a number, that end its line; returns the place after the LF.
pub fn put_named_digits(out: &mut [u8], at: usize, n: u32, held: u64) -> usize
    requires { at + 11 + length (io_name n) ≤ length out.old }
    ensures { (out.new ≡ put out.old at (field (io_name n) ++ (field (low_bytes 8 held) ++ (lf ∷ [])))) × (result ≡ at + 11 + length (io_name n)) }
{
    let value_at = put_name(out, at, n);
    put_last_digits(out, value_at, held)
}

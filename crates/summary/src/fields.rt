// Fields of a line: a space, and a number in decimal.
// Stays (2, 4): a number in the middle of a line and one that ends it; the text goes to a place of a lent buffer (no heap).
ghost use Rattle.std.specs.Prelude.{◌≡◌, [], ◌∷◌, ◌++◌, ◌+◌, ◌≤◌, length};
ghost use Rattle.text.specs.Lines.{LF as lf};
ghost use Rattle.text.specs.Numerals.{digit_count, decimal};
ghost use Rattle.text.specs.Place.{put};
ghost use Rattle.trace.specs.LogLines.{field};

use text::decimal::put_decimal;
use text::lines::LF;

// A number; returns the place after it.
pub fn put_number(out: &mut [u8], at: usize, v: u64) -> usize
    requires { at + 1 + digit_count 10 v ≤ length out.old }
    ensures { (out.new ≡ put out.old at (field (decimal v))) × (result ≡ at + 1 + digit_count 10 v) }
{
    out[at] = b' ';
    put_decimal(out, at + 1, v)
}

// A number that ends its line; returns the place after the LF.
pub fn put_last_number(out: &mut [u8], at: usize, v: u64) -> usize
    requires { at + 2 + digit_count 10 v ≤ length out.old }
    ensures { (out.new ≡ put out.old at (field (decimal v) ++ (lf ∷ []))) × (result ≡ at + 2 + digit_count 10 v) }
{
    let end = put_number(out, at, v);
    out[end] = LF;
    end + 1
}

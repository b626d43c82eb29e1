// A number on a line.
// Stays (2, 4): no heap: the line goes to a place of a lent buffer, whose bytes the contract states.
ghost use Rattle.std.specs.Prelude.{◌≡◌, [], ◌∷◌, ◌++◌, ◌+◌, ◌≤◌, length};
ghost use Rattle.text.specs.Lines.{LF as lf};
ghost use Rattle.text.specs.Numerals.{decimal};
ghost use Rattle.text.specs.Place.{put};

use text::decimal::put_decimal;
use text::lines::LF;
use text::place::put_bytes;

// Puts a line at a place, what stands in front of a number and the number in decimal, and returns the place after it.
pub fn put_number_line(front: &[u8], v: u64, out: &mut [u8], at: usize) -> usize
    requires { at + length front.now + 21 ≤ length out.old }
    ensures { (out.new ≡ put out.old at (front.now ++ decimal v ++ (lf ∷ []))) × (result ≡ at + length (front.now ++ decimal v ++ (lf ∷ []))) × (result ≤ at + length front.now + 21) }
{
    let number_at = put_bytes(out, at, front);
    let end = put_decimal(out, number_at, v);
    out[end] = LF;
    end + 1
}

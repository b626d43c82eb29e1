// A word that ends its line.
// Stays (2, 4): no heap: the word goes to a place of a lent buffer, whose bytes the contract states.
ghost use Rattle.std.specs.Prelude.{◌≡◌, [], ◌∷◌, ◌++◌, ◌+◌, ◌≤◌, length};
ghost use Rattle.text.specs.Lines.{LF as lf};
ghost use Rattle.text.specs.Numerals.{digits};
ghost use Rattle.text.specs.Place.{put};
ghost use Rattle.trace.specs.LogLines.{field};

use text::hex_words::HexTable;
use text::lines::LF;
use trace::fields::put_word;

// Puts a blank, a word in hexadecimal and an LF at a place and returns the place after them.
pub fn put_last_word(out: &mut [u8], at: usize, x: u32, table: &HexTable) -> usize
    requires { at + 10 ≤ length out.old }
    ensures { (out.new ≡ put out.old at (field (digits 16 8 x) ++ (lf ∷ []))) × (result ≡ at + 10) }
{
    let end = put_word(out, at, x, table);
    out[end] = LF;
    end + 1
}

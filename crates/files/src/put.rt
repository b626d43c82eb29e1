// Words put as lines into a text that has room for them.
// Stays (4): the text goes to a place of a lent buffer (no heap), and the contract says which bytes.
ghost use Rattle.std.specs.Prelude.{◌≡◌, [], ◌∷◌, ◌++◌, ◌+◌, ◌*◌, ◌≤◌, length};
ghost use Rattle.text.specs.Numerals.{digits};
ghost use Rattle.text.specs.Lines.{LF as lf};
ghost use Rattle.text.specs.Place.{put};
ghost use Rattle.files.specs.MemoryFile.{file_text};

use crate::Cell;
use text::digits::PairTable;
use text::lines::LF;

// Puts one line: the k low digits of v and an LF.
fn put_line(out: &mut [u8], at: usize, k: usize, v: u64, pairs: &PairTable)
    requires { at + k + 1 ≤ length out.old }
    ensures { out.new ≡ put out.old at (digits 16 k v ++ (lf ∷ [])) }
{
    pairs.put_hex(out, at, k, v);
    out[at + k] = LF;
}

// Puts the k low digits of each word, a line each, from a place on, and returns the place after them.
pub fn put_words<C: Cell>(
    words: &[C],
    k: usize,
    out: &mut [u8],
    at: usize,
    pairs: &PairTable,
) -> usize
    requires { at + length words.now * (k + 1) ≤ length out.old }
    ensures { (out.new ≡ put out.old at (file_text k (C.numbers words.now))) × (result ≡ at + length words.now * (k + 1)) }
{
    let mut p = at;
    for word in words {
        put_line(out, p, k, word.number(), pairs);
        p += k + 1;
    }
    p
}

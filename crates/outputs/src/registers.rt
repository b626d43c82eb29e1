// regout.txt.
// Stays (4): no heap: the text goes to the front of a lent buffer, whose bytes the contract states.
ghost use Rattle.std.specs.Prelude.{◌≡◌, ◌≤◌, length};
ghost use Rattle.text.specs.Place.{put};
ghost use Rattle.files.specs.Sizes.{word_digits};
ghost use Rattle.files.specs.MemoryFile.{file_text};
ghost use Rattle.console.specs.Counts.{IsPrefixLen};

use files::{WORD_DIGITS, put_words};
use text::digits::PairTable;

// Puts R3 to R15, a line each, at the front and returns how many bytes they have.
pub fn put_registers(regs: &[u32; 13], out: &mut [u8]) -> usize
    requires { 117 ≤ length out.old }
    ensures { (out.new ≡ put out.old 0 (file_text word_digits regs.now)) × (result ≡ 117) × IsPrefixLen result out.new }
{
    let pairs = PairTable::new();
    put_words(regs, WORD_DIGITS, out, 0, &pairs)
}

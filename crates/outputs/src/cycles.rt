// cycles.txt.
// Stays (4): no heap: the text goes to the front of a lent buffer, whose bytes the contract states.
ghost use Rattle.std.specs.Prelude.{◌≡◌, ◌≤◌, length};
ghost use Rattle.text.specs.Place.{put};
ghost use Rattle.console.specs.Counts.{IsPrefixLen};
ghost use Rattle.outputs.specs.Cycles.{cycles_text};

use crate::numbers::put_number_line;

// Puts the number of cycles in decimal and an LF at the front and returns how many bytes they have.
pub fn put_cycles(age: u64, out: &mut [u8]) -> usize
    requires { 21 ≤ length out.old }
    ensures { (out.new ≡ put out.old 0 (cycles_text age)) × (result ≡ length (cycles_text age)) × (result ≤ 21) × IsPrefixLen result out.new }
{
    put_number_line(b"", age, out, 0)
}

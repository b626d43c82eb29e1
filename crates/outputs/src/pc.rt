// PC in hexadecimal.
// Stays (4): no heap: the digits go to a place of a lent buffer, whose bytes the contract states.
ghost use Rattle.std.specs.Prelude.{◌≡◌, ◌+◌, ◌≤◌, length};
ghost use Rattle.text.specs.Numerals.{digits};
ghost use Rattle.text.specs.Place.{put};

use text::digits::PairTable;

// Puts the 3 digits of PC at a place and returns the place after them.
pub fn put_pc(out: &mut [u8], at: usize, pc: u32) -> usize
    requires { at + 3 ≤ length out.old }
    ensures { (out.new ≡ put out.old at (digits 16 3 pc)) × (result ≡ at + 3) }
{
    PairTable::new().put_hex(out, at, 3, u64::from(pc));
    at + 3
}

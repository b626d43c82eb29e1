// The text of R3 to R15 with its LF, 118 bytes, which stands beside them and is changed where a register is.
// Stays (3, 4, 5, 6): the registers and their text are one type in executor (`Registers`), which these two functions fill and keep; R3 is the first that is put.
ghost use Rattle.std.specs.Prelude.{◌≡◌, ◌+◌, ◌*◌, ◌<◌, length, drop};
ghost use Rattle.text.specs.Numerals.{digits};
ghost use Rattle.text.specs.Place.{put};
ghost use Rattle.trace.specs.LogLines.{registers_text};

use crate::fields::put_word;
use text::hex_words::HexTable;
use text::lines::LF;

// Puts the text of R3 to R15.
pub fn put_registers(text: &mut [u8; 118], regs: &[u32; 16], table: &HexTable)
    requires { (length text.old ≡ 118) × (length regs.now ≡ 16) }
    ensures { text.new ≡ registers_text (drop 3 regs.now) }
{
    let mut at = 0;
    for n in 3..16 {
        at = put_word(text, at, regs[n], table);
    }
    text[117] = LF;
}

// Changes the text where the register n of R3 to R15, counted from 0, becomes x (`text-set`).
pub fn put_register_digits(text: &mut [u8; 118], n: usize, x: u32, table: &HexTable)
    requires { (n < 13) × (length text.old ≡ 118) }
    ensures { text.new ≡ put text.old (n * 9 + 1) (digits 16 8 x) }
{
    table.put_hex_word(text, n * 9 + 1, x);
}

// Registers, a line each: the name, a blank and 8 digits. (The two kinds differ in their names and in which are listed; a loop that takes the line as a step would
// need that step's contract spelled out, and be no plainer.)
// Stays (2, 4): the two kinds differ in their names and in which are listed; a loop that takes the line as a step would need that step's contract spelled out, and be no plainer.
ghost use Rattle.std.specs.Prelude.{◌≡◌, [], ◌∷◌, ◌++◌, map, ◌+◌, ◌≤◌, ◌<◌, length, get_or};
ghost use Rattle.text.specs.Lines.{LF as lf, unlines};
ghost use Rattle.text.specs.Place.{put, PutsWithin};
ghost use Rattle.isa.specs.Registers.{register_name, io_name};
ghost use Rattle.outputs.specs.RecordText.{word_line, saved_registers, register_line, saved_io, io_line};

use crate::last_word::put_last_word;
use names::put_io_name;
use text::hex_words::HexTable;
use text::place::put_bytes;

// The names of R3 to R15.
const NAMES: [&str; 13] = [
    "$v0", "$a0", "$a1", "$a2", "$t0", "$t1", "$t2", "$s0", "$s1", "$s2", "$gp", "$sp", "$ra",
];

// Puts R3 to R15 from a place on and returns the place after them.
pub fn put_register_lines(regs: &[u32; 13], out: &mut [u8], at: usize, table: &HexTable) -> usize
    requires { at + 169 ≤ length out.old }
    ensures { PutsWithin 169 out.old at (unlines (map (register_line regs.now) saved_registers)) result out.new }
{
    let mut end = at;
    for (i, x) in regs.iter().enumerate() {
        end = put_register_line(i, *x, out, end, table);
    }
    end
}

// Puts the I/O registers that a saved record has from a place on and returns the place after them.
pub fn put_io_lines(io: &[u32; 23], out: &mut [u8], at: usize, table: &HexTable) -> usize
    requires { at + 440 ≤ length out.old }
    ensures { PutsWithin 440 out.old at (unlines (map (io_line io.now) saved_io)) result out.new }
{
    let mut end = at;
    for i in 0..20 {
        let n = saved_io(i);
        end = put_io_line(n, io[n], out, end, table);
    }
    end
}

// The number of the I/O register that stands at a place of the saved ones: 18 and 19 are not among them.
fn saved_io(i: usize) -> usize
    requires { i < 20 }
    ensures { (result ≡ get_or saved_io i 0) × (result < 22) }
{
    if i < 18 { i } else { i + 2 }
}

// Puts the register R(3 + i) with the value x at a place and returns the place after it.
fn put_register_line(i: usize, x: u32, out: &mut [u8], at: usize, table: &HexTable) -> usize
    requires { (i < 13) × (at + 13 ≤ length out.old) }
    ensures { (out.new ≡ put out.old at (word_line (register_name (3 + i)) x ++ (lf ∷ []))) × (result ≡ at + length (word_line (register_name (3 + i)) x ++ (lf ∷ []))) × (result ≡ at + 13) }
{
    let value_at = put_bytes(out, at, register_name(i));
    put_last_word(out, value_at, x, table)
}

// The name of the register R(3 + i).
fn register_name(i: usize) -> &'static [u8]
    requires { i < 13 }
    ensures is { result.now ≡ register_name (3 + i) }
    ensures three { length result.now ≡ 3 }
{
    NAMES[i].as_bytes()
}

// Puts the I/O register n with the value x at a place and returns the place after it.
fn put_io_line(n: usize, x: u32, out: &mut [u8], at: usize, table: &HexTable) -> usize
    requires { (n < 22) × (at + 22 ≤ length out.old) }
    ensures { PutsWithin 22 out.old at (word_line (io_name n) x ++ (lf ∷ [])) result out.new }
{
    let value_at = put_io_name(out, at, n as u32);
    put_last_word(out, value_at, x, table)
}

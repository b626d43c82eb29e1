// The lines H, L and D of an instruction, from the I/O registers before it.
// Stays (1, 2, 4, 7): in and out are matched by their opcodes (a decoded kind made a cycle slower: docs/DECISIONS.md); lines are put into the lent log, lengths.rt measures
// them without one.
ghost use Rattle.std.specs.Prelude.{cond, not, [], ◌∷◌, ◌+◌, ◌≤◌, eqb, length};
ghost use Rattle.text.specs.Place.{Puts};
ghost use Rattle.isa.specs.Operations.{operation_of, input, output};
ghost use Rattle.trace.specs.LogLines.{line_ld};
ghost use Rattle.trace.specs.ValidPrefixes.{ValidFor};
ghost use Rattle.machine.specs.Log.{change_lines, io_lines};

use isa::Access;
use isa::io::{DISPLAY7SEG, LEDS, is_listed};
use isa::opcodes::{IN, OUT};
use machine::Operands;
use text::hex_words::HexTable;
use trace::log_lines::{put_line_h, put_line_ld};
use trace::prefixes::Prefix;
use words::arithmetic::plus;

// Puts the lines of an instruction at a place and returns the place after them; `c` is the cycle, which the prefix is valid for.
pub fn put_io_lines(
    log: &mut [u8],
    at: usize,
    c: u64,
    op: u32,
    o: Operands,
    io: &[u32; 23],
    table: &HexTable,
    prefix: &Prefix,
) -> usize
    requires { (at + length (io_lines c (operation_of op) o io.now) ≤ length log.old) × ValidFor c prefix.now }
    ensures { Puts log.old at (io_lines c (operation_of op) o io.now) result log.new }
{
    match op {
        IN => put_read_line(log, at, c, o, io, table, prefix),
        OUT => put_write_lines(log, at, c, o, io, table, prefix),
        _ => at,
    }
}

// in: H.
fn put_read_line(
    log: &mut [u8],
    at: usize,
    c: u64,
    o: Operands,
    io: &[u32; 23],
    table: &HexTable,
    prefix: &Prefix,
) -> usize
    requires { (at + length (io_lines c input o io.now) ≤ length log.old) × ValidFor c prefix.now }
    ensures { Puts log.old at (io_lines c input o io.now) result log.new }
{
    let a = plus(o.rs, o.rt);
    if is_listed(a) {
        return put_line_h(log, at, c, Access::Read, a, io[a as usize], table, prefix);
    }
    at
}

// out: H, and L or D where it changes leds or display7seg.
fn put_write_lines(
    log: &mut [u8],
    at: usize,
    c: u64,
    o: Operands,
    io: &[u32; 23],
    table: &HexTable,
    prefix: &Prefix,
) -> usize
    requires { (at + length (io_lines c output o io.now) ≤ length log.old) × ValidFor c prefix.now }
    ensures { Puts log.old at (io_lines c output o io.now) result log.new }
{
    let a = plus(o.rs, o.rt);
    if is_listed(a) {
        let change_at = put_line_h(log, at, c, Access::Write, a, o.rm, table, prefix);
        return put_change_line(log, change_at, c, a, o.rm, io, table, prefix);
    }
    at
}

// L or D: x goes to IO[n].
fn put_change_line(
    log: &mut [u8],
    at: usize,
    c: u64,
    n: u32,
    x: u32,
    io: &[u32; 23],
    table: &HexTable,
    prefix: &Prefix,
) -> usize
    requires { (at + length (change_lines c n x io.now) ≤ length log.old) × ValidFor c prefix.now }
    ensures { Puts log.old at (change_lines c n x io.now) result log.new }
{
    match n {
        9 => put_if_new(log, at, b'L', c, x, io[LEDS], table, prefix),
        10 => put_if_new(log, at, b'D', c, x, io[DISPLAY7SEG], table, prefix),
        _ => at,
    }
}

// A line of a letter, where x is not the value before.
fn put_if_new(
    log: &mut [u8],
    at: usize,
    letter: u8,
    c: u64,
    x: u32,
    before: u32,
    table: &HexTable,
    prefix: &Prefix,
) -> usize
    requires { (at + length (cond (not (eqb x before)) (line_ld (letter ∷ []) c x) []) ≤ length log.old) × ValidFor c prefix.now }
    ensures { Puts log.old at (cond (not (eqb x before)) (line_ld (letter ∷ []) c x) []) result log.new }
{
    if x == before {
        return at;
    }
    put_line_ld(log, at, letter, c, x, table, prefix)
}

// How many bytes the lines of the next cycle have, known before anything is changed.
// Stays (1, 2, 7): lines are measured before anything is changed, so without a log; the register's number is the one that a program computed.
ghost use Rattle.std.specs.Prelude.{◌≡◌, cond, not, List, [], ◌∷◌, ℕ, ◌^◌, ◌<◌, eqb, length, get_or, drop};
ghost use Rattle.isa.specs.Operations.{operation_of, input, output};
ghost use Rattle.trace.specs.LogLines.{line_ld};
ghost use Rattle.machine.specs.Cycle.{at_fetch};
ghost use Rattle.machine.specs.Log.{change_lines, io_lines, lines_at_fetch};
ghost use Rattle.machine.specs.Soundness.{Sound};
ghost use Rattle.executor.specs.Lent.{packed};

use crate::cycle::read_operands;
use crate::interrupts::begin_cycle;
use isa::Access;
use isa::io::{DISPLAY7SEG, LEDS, is_listed};
use isa::opcodes::decode_opcode;
use isa::word::decode;
use machine::{Core, Operands};
use trace::log_lines::{line_h_length, line_ld_length};
use words::arithmetic::plus;

// The bytes of a T line.
const LINE_T: usize = 163;

// How many bytes the next cycle logs. `hit`: the age is in the irq2 list.
pub fn lines_length(c: Core, hit: bool, regs: &[u32; 16], io: &[u32; 23], image: &[u64]) -> usize
    requires sound { Sound c (drop 3 regs.now) io.now }
    requires sized { (length regs.now ≡ 16) × (get_or regs.now 0 0 ≡ 0) × (length image.now ≡ 4096) }
    ensures { (memory disk frame : List ℕ) → result ≡ length (lines_at_fetch image.now (at_fetch hit (packed c regs.now io.now memory disk frame))) }
{
    let mut io_then = *io;
    let mut regs_then = *regs;
    let s = begin_cycle(c, hit, &mut io_then);
    let f = decode(image[s.pc as usize]);
    let o = read_operands(f, &mut regs_then);
    LINE_T + io_lines_length(s.age, f.op, o, &io_then)
}

// The bytes of the lines H, L and D of an instruction; `c` is the cycle.
fn io_lines_length(c: u64, op: u32, o: Operands, io: &[u32; 23]) -> usize
    requires { c < 2 ^ 40 }
    ensures { result ≡ length (io_lines c (operation_of op) o io.now) }
{
    let Some(access) = decode_opcode(op) else {
        return 0;
    };
    match access {
        Access::Read => read_length(c, o),
        Access::Write => write_length(c, o, io),
    }
}

// in: H, whatever the register holds.
fn read_length(c: u64, o: Operands) -> usize
    ensures { (io : List ℕ) → result ≡ length (io_lines c input o io) }
{
    let a = plus(o.rs, o.rt);
    if is_listed(a) {
        return line_h_length(c, Access::Read, a);
    }
    0
}

// out: H, and L or D.
fn write_length(c: u64, o: Operands, io: &[u32; 23]) -> usize
    requires { c < 2 ^ 40 }
    ensures { result ≡ length (io_lines c output o io.now) }
{
    let a = plus(o.rs, o.rt);
    if is_listed(a) {
        return line_h_length(c, Access::Write, a) + change_length(c, a, o.rm, io);
    }
    0
}

// L or D: x goes to IO[n].
fn change_length(c: u64, n: u32, x: u32, io: &[u32; 23]) -> usize
    ensures { result ≡ length (change_lines c n x io.now) }
{
    match n {
        9 => length_if_new(c, x, io[LEDS]),
        10 => length_if_new(c, x, io[DISPLAY7SEG]),
        _ => 0,
    }
}

// A line of any letter, where x is not the value before.
fn length_if_new(c: u64, x: u32, before: u32) -> usize
    ensures { (letter : ℕ) → result ≡ length (cond (not (eqb x before)) (line_ld (letter ∷ []) c x) []) }
{
    if x == before {
        return 0;
    }
    line_ld_length(c)
}

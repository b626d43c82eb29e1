// The calculations and comparisons of the instruction set, by opcode.
// Stays (1, 7): calculate and compare match on the opcode's number, as document 01 has it; a decoded kind made a cycle slower (docs/DECISIONS.md).
ghost use Rattle.std.specs.Prelude.{◌≡◌, ◌<◌, ◌≤◌};
ghost use Rattle.isa.specs.Operations.{calculation_of, comparison_of};
ghost use Rattle.words.specs.Words.{calculated, holds as holds_of};

use crate::arithmetic::{minus, plus, times};
use crate::signed::{shift_signed, signed};

// What add to srl, the opcodes 0 to 8, calculate.
pub fn calculate(op: u32, rs: u32, rt: u32, rm: u32) -> u32
    requires { op < 9 }
    ensures { result ≡ calculated (calculation_of op) rs rt rm }
{
    match op {
        0 => plus(plus(rs, rt), rm),
        1 => minus(minus(rs, rt), rm),
        2 => plus(times(rs, rt), rm),
        3 => rs & rt & rm,
        4 => rs | rt | rm,
        5 => rs ^ rt ^ rm,
        6 => rs << (rt % 32),
        7 => shift_signed(rs, rt % 32),
        _ => rs >> (rt % 32),
    }
}

// Whether the comparison of beq to bge, the opcodes 9 to 14, holds.
pub fn holds(op: u32, rs: u32, rt: u32) -> bool
    requires { (9 ≤ op) × (op < 15) }
    ensures { result ≡ holds_of (comparison_of op) rs rt }
{
    match op {
        9 => rs == rt,
        10 => rs != rt,
        11 => signed(rs) < signed(rt),
        12 => signed(rt) < signed(rs),
        13 => signed(rs) <= signed(rt),
        _ => signed(rt) <= signed(rs),
    }
}

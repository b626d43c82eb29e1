// What the operations do: a function for each group of opcodes, lent what it works on.
// Stays (1, 2): the status is the record's number, and the definition `executed` has it; the size is the one of the data memory.
ghost use Rattle.std.specs.Prelude.{◌≡◌, List, ℕ, ◌≤◌, ◌<◌, length};
ghost use Rattle.isa.specs.Operations.{operation_of, jal, lw, sw, reti, input as input_operation};
ghost use Rattle.machine.specs.Execution.{executed};
ghost use Rattle.executor.specs.Lent.{packed};

use crate::progress::{end, jump, next, onward};
use crate::registers::Registers;
use isa::io::{IRQRETURN, is_listed};
use machine::scalars::{with_handler, with_pc};
use machine::{Core, Operands};
use text::hex_words::HexTable;
use words::arithmetic::plus;
use words::operations::{calculate, holds};

// The size of the data memory.
const MEMORY: u32 = 4096;

// add to srl: 0 to 8.
pub fn calculation(
    op: u32,
    c: Core,
    o: Operands,
    registers: &mut Registers,
    table: &HexTable,
) -> Core
    requires { (op < 9) × (o.target < 16) }
    ensures { (io memory disk frame : List ℕ) → packed result registers.new.regs io memory disk frame ≡ executed (operation_of op) o (packed c registers.old.regs io memory disk frame) }
{
    registers.put(o.target, calculate(op, o.rs, o.rt, o.rm), table);
    onward(c)
}

// beq to bge: 9 to 14.
pub fn branch(op: u32, c: Core, o: Operands) -> Core
    requires { (9 ≤ op) × (op < 15) }
    ensures { (regs io memory disk frame : List ℕ) → packed result regs io memory disk frame ≡ executed (operation_of op) o (packed c regs io memory disk frame) }
{
    if holds(op, o.rs, o.rt) {
        return jump(c, o.rm);
    }
    onward(c)
}

// jal.
pub fn link(c: Core, o: Operands, registers: &mut Registers, table: &HexTable) -> Core
    requires { o.target < 16 }
    ensures { (io memory disk frame : List ℕ) → packed result registers.new.regs io memory disk frame ≡ executed jal o (packed c registers.old.regs io memory disk frame) }
{
    registers.put(o.target, next(c), table);
    jump(c, o.rm)
}

// lw.
pub fn load(
    c: Core,
    o: Operands,
    registers: &mut Registers,
    memory: &[u32],
    table: &HexTable,
) -> Core
    requires { (o.target < 16) × (length memory.now ≡ 4096) }
    ensures { (io disk frame : List ℕ) → packed result registers.new.regs io memory.now disk frame ≡ executed lw o (packed c registers.old.regs io memory.now disk frame) }
{
    let a = plus(o.rs, o.rt);
    if MEMORY <= a {
        return end(c, 3);
    }
    registers.put(o.target, plus(memory[a as usize], o.rm), table);
    onward(c)
}

// sw.
pub fn store(c: Core, o: Operands, memory: &mut [u32]) -> Core
    requires { length memory.old ≡ 4096 }
    ensures { (regs io disk frame : List ℕ) → packed result regs io memory.new disk frame ≡ executed sw o (packed c regs io memory.old disk frame) }
{
    let a = plus(o.rs, o.rt);
    if MEMORY <= a {
        return end(c, 3);
    }
    memory[a as usize] = plus(o.rm, o.rd);
    onward(c)
}

// reti.
pub fn leave_handler(c: Core, o: Operands, io: &[u32; 23]) -> Core
    ensures { (regs memory disk frame : List ℕ) → packed result regs io.now memory disk frame ≡ executed reti o (packed c regs io.now memory disk frame) }
{
    with_pc(with_handler(c, 0), io[IRQRETURN])
}

// in.
pub fn input(
    c: Core,
    o: Operands,
    registers: &mut Registers,
    io: &[u32; 23],
    table: &HexTable,
) -> Core
    requires { o.target < 16 }
    ensures { (memory disk frame : List ℕ) → packed result registers.new.regs io.now memory disk frame ≡ executed input_operation o (packed c registers.old.regs io.now memory disk frame) }
{
    let a = plus(o.rs, o.rt);
    if is_listed(a) {
        registers.put(o.target, io[a as usize], table);
        return onward(c);
    }
    end(c, 4)
}

// Step 4 of a cycle: what an instruction does, by its opcode.
// Stays (1, 5, 7): execute matches on the opcode's number with ranges, as document 01 has it; a decoded kind made a cycle 5 to 18% slower (docs/DECISIONS.md); the C
// interface lends the memories one by one.
ghost use Rattle.std.specs.Prelude.{◌≡◌, List, ℕ, ◌<◌, length};
ghost use Rattle.isa.specs.Operations.{operation_of};
ghost use Rattle.machine.specs.Execution.{executed};
ghost use Rattle.executor.specs.Lent.{packed, Ready};

use crate::operations::{branch, calculation, input, leave_handler, link, load, store};
use crate::output::output;
use crate::progress::end;
use crate::registers::Registers;
use machine::{Core, Operands};
use text::hex_words::HexTable;

// Executes an instruction on its operands.
pub fn execute(
    op: u32,
    c: Core,
    o: Operands,
    registers: &mut Registers,
    io: &mut [u32; 23],
    memory: &mut [u32],
    frame: &mut [u8],
    table: &HexTable,
) -> Core
    requires { (o.target < 16) × (length memory.old ≡ 4096) × Ready io.old frame.old }
    ensures { (disk : List ℕ) → packed result registers.new.regs io.new memory.new disk frame.new ≡ executed (operation_of op) o (packed c registers.old.regs io.old memory.old disk frame.old) }
{
    match op {
        0..=8 => calculation(op, c, o, registers, table),
        9..=14 => branch(op, c, o),
        15 => link(c, o, registers, table),
        16 => load(c, o, registers, memory, table),
        17 => store(c, o, memory),
        18 => leave_handler(c, o, io),
        19 => input(c, o, registers, io, table),
        20 => output(c, o, io, frame),
        21 => end(c, 1),
        22..=0xFFFF_FFFF => end(c, 2),
    }
}

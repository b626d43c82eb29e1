// One cycle, with its log lines.
// Stays (1, 4, 5): what a cycle is lent comes one by one from the C interface and is borrowed step by step; the opcode is a number, as document 01 has it.
ghost use Rattle.std.specs.Prelude.{◌≡◌, List, ◌++◌, ℕ, ◌+◌, ◌/◌, ◌%◌, ◌^◌, ◌≤◌, ◌<◌, length, get_or, drop};
ghost use Rattle.text.specs.Place.{Puts};
ghost use Rattle.isa.specs.Word.{Fitting as FieldsFit, sign_extended};
ghost use Rattle.isa.specs.Operations.{operation_of};
ghost use Rattle.devices.specs.Disk.{HasSector};
ghost use Rattle.trace.specs.LogLines.{line_t};
ghost use Rattle.trace.specs.ValidPrefixes.{ValidFor};
ghost use Rattle.machine.specs.declared.Core.{Core as CoreOf};
ghost use Rattle.machine.specs.Execution.{registers_of, operands_of, fetched_and_executed};
ghost use Rattle.machine.specs.Cycle.{finished, at_fetch};
ghost use Rattle.machine.specs.Log.{io_lines, lines_at_fetch, traced, traced_on};
ghost use Rattle.machine.specs.Soundness.{Sound};
ghost use Rattle.executor.specs.Lent.{packed, Sized, Ready};

use crate::Step;
use crate::interrupts::begin_cycle;
use crate::io_lines::put_io_lines;
use devices::cycle::step_devices;
use executor::execute::execute;
use executor::registers::Registers;
use isa::Fields;
use isa::word::{decode, sign_extend};
use machine::scalars::{with_age, with_drive};
use machine::{Core, Operands};
use text::hex_words::HexTable;
use trace::log_lines::put_line_t;
use trace::prefixes::Prefix;

// Makes one cycle and puts its lines into the log at a place. `hit`: the age is in the irq2 list. The prefix is made valid for the cycle. Whether the machine may make a cycle, and
// whether its lines fit, a run asks first.
pub fn cycle(
    c: Core,
    hit: bool,
    registers: &mut Registers,
    io: &mut [u32; 23],
    image: &[u64],
    memory: &mut [u32],
    disk: &mut [u32],
    frame: &mut [u8],
    log: &mut [u8],
    at: usize,
    table: &HexTable,
    prefix: &mut Prefix,
) -> Step
    requires sound { Sound c (drop 3 registers.old.regs) io.old }
    requires sized { (length image.now ≡ 4096) × Sized memory.old disk.old frame.old }
    requires room { at + length (lines_at_fetch image.now (at_fetch hit (packed c registers.old.regs io.old memory.old disk.old frame.old))) ≤ length log.old }
    ensures { traced (packed result.core registers.new.regs io.new memory.new disk.new frame.new) log.new result.at ≡ traced_on image.now hit (traced (packed c registers.old.regs io.old memory.old disk.old frame.old) log.old at) }
{
    prefix.update(c.age);
    let began = c.drive.left;
    let s = begin_cycle(c, hit, io);
    let d = fetch_and_execute(
        s, registers, io, image, memory, frame, log, at, table, prefix,
    );
    Step {
        core: end_cycle(began, d.core, io, memory, disk),
        at: d.at,
    }
}

// Steps 3 and 4.
fn fetch_and_execute(
    c: Core,
    registers: &mut Registers,
    io: &mut [u32; 23],
    image: &[u64],
    memory: &mut [u32],
    frame: &mut [u8],
    log: &mut [u8],
    at: usize,
    table: &HexTable,
    prefix: &Prefix,
) -> Step
    requires fetched { (c.pc < 4096) × (length image.now ≡ 4096) }
    requires prefix { ValidFor c.age prefix.now }
    requires ready { (length memory.old ≡ 4096) × Ready io.old frame.old }
    requires room { (disk : List ℕ) → at + length (lines_at_fetch image.now (packed c registers.old.regs io.old memory.old disk frame.old)) ≤ length log.old }
    ensures executed { (disk : List ℕ) → packed result.core registers.new.regs io.new memory.new disk frame.new ≡ fetched_and_executed image.now (packed c registers.old.regs io.old memory.old disk frame.old) }
    ensures logged { (disk : List ℕ) → Puts log.old at (lines_at_fetch image.now (packed c registers.old.regs io.old memory.old disk frame.old)) result.at log.new }
{
    let word = image[c.pc as usize];
    let f = decode(word);
    let o = read_operands(f, &mut registers.regs);
    let end = put_lines(log, at, c, word, f.op, o, registers, io, table, prefix);
    Step {
        core: execute(f.op, c, o, registers, io, memory, frame, table),
        at: end,
    }
}

// Sets R1 and R2 to the immediates and reads the operands.
pub fn read_operands(f: Fields, regs: &mut [u32; 16]) -> Operands
    requires { FieldsFit f × ((length regs.old ≡ 16) × (get_or regs.old 0 0 ≡ 0)) }
    ensures { (c : CoreOf) (io memory disk frame : List ℕ) → (result ≡ operands_of f (packed c regs.old io memory disk frame)) × (regs.new ≡ registers_of f (packed c regs.old io memory disk frame)) }
{
    regs[1] = sign_extend(f.imm1);
    regs[2] = sign_extend(f.imm2);
    let rs = f.rs;
    let rt = f.rt;
    let rm = f.rm;
    let rd = f.rd;
    Operands {
        rs: regs[rs],
        rt: regs[rt],
        rm: regs[rm],
        rd: regs[rd],
        target: rd,
    }
}

// Puts the lines of an instruction: T, and H, L and D where it has them.
fn put_lines(
    log: &mut [u8],
    at: usize,
    c: Core,
    word: u64,
    op: u32,
    o: Operands,
    registers: &Registers,
    io: &[u32; 23],
    table: &HexTable,
    prefix: &Prefix,
) -> usize
    requires room { at + length (line_t c.pc word registers.now.regs ++ io_lines c.age (operation_of op) o io.now) ≤ length log.old }
    requires prefix { ValidFor c.age prefix.now }
    requires immediates { (get_or registers.now.regs 1 0 ≡ sign_extended (word / 2 ^ 12 % 2 ^ 12)) × (get_or registers.now.regs 2 0 ≡ sign_extended (word % 2 ^ 12)) }
    ensures { Puts log.old at (line_t c.pc word registers.now.regs ++ io_lines c.age (operation_of op) o io.now) result log.new }
{
    let line = put_line_t(log, at, c.pc, word, &registers.text, table);
    put_io_lines(log, line, c.age, op, o, io, table, prefix)
}

// Steps 5 to 7; `began` are the disk cycles to go when the cycle began.
fn end_cycle(began: u32, c: Core, io: &mut [u32; 23], memory: &mut [u32], disk: &mut [u32]) -> Core
    requires { (began ≤ c.drive.left) × ((c.age < 2 ^ 40) × HasSector c.drive io.old memory.old disk.old) }
    ensures { (regs frame : List ℕ) → packed result regs io.new memory.new disk.new frame ≡ finished began (packed c regs io.old memory.old disk.old frame) }
{
    let drive = step_devices(began, c.drive, io, memory, disk);
    with_drive(with_age(c, c.age + 1), drive)
}

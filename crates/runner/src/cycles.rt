// The cycles of a run.
// Stays (3): a cycle makes the scalars anew, their age among them, so the loop counts by it.
ghost use Rattle.std.specs.Prelude.{◌≡◌, true, length, drop};
ghost use Rattle.files.specs.Irq2File.{rising};
ghost use Rattle.machine.specs.Soundness.{Sound};
ghost use Rattle.executor.specs.Lent.{packed, Sized};
ghost use Rattle.runner.specs.Lab.{code_of};
ghost use Rattle.runner.specs.Answers.{EndsRun};

use crate::Ended;
use crate::questions::{ended, last_age, may_cycle};
use executor::registers::Registers;
use irq2_list::{first_awaited, is_awaited, next_awaited};
use machine::Core;
use simulator::cycle::cycle;
use text::hex_words::HexTable;
use trace::prefixes::Prefix;

// Makes cycles of a sound machine, and puts their lines into the log from its front on, until the run has a reason to stop.
pub fn make_cycles(
    start: Core,
    registers: &mut Registers,
    io: &mut [u32; 23],
    image: &[u64],
    memory: &mut [u32],
    disk: &mut [u32],
    frame: &mut [u8],
    irq2: &[u64],
    budget: u64,
    log: &mut [u8],
    table: &HexTable,
) -> Ended
    requires sound { Sound start (drop 3 registers.old.regs) io.old }
    requires rising { rising irq2.now ≡ true }
    requires sized { (length image.now ≡ 4096) × Sized memory.old disk.old frame.old }
    ensures { EndsRun (code_of image.now irq2.now) budget log.old (packed start registers.old.regs io.old memory.old disk.old frame.old) result (packed result.core registers.new.regs io.new memory.new disk.new frame.new) log.new }
{
    let mut c = start;
    let mut awaited = first_awaited(irq2, start.age);
    let mut at = 0;
    let mut prefix = Prefix::none();
    let last = last_age(start.age, budget);
    while c.age < last {
        let hit = is_awaited(awaited, c.age);
        if !may_cycle(c, hit, &registers.regs, io, image, log.len() - at) {
            return ended(c, c.age - start.age, budget, at);
        }
        let s = cycle(
            c,
            hit,
            registers,
            io,
            image,
            memory,
            disk,
            frame,
            log,
            at,
            table,
            &mut prefix,
        );
        c = s.core;
        at = s.at;
        awaited = next_awaited(irq2, awaited, hit);
    }
    ended(c, c.age - start.age, budget, at)
}

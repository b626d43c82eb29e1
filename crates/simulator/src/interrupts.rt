// Steps 1 and 2 of a cycle.
// Stays (5): the registers are lent for these two steps alone.
ghost use Rattle.std.specs.Prelude.{◌≡◌, cond, ◌&&◌, List, ℕ, eqb, set};
ghost use Rattle.isa.specs.Registers.{irq2status};
ghost use Rattle.machine.specs.Interrupts.{is_requested, interrupted};
ghost use Rattle.machine.specs.Cycle.{at_fetch};
ghost use Rattle.executor.specs.Lent.{packed};

use isa::io::{
    IRQ0ENABLE, IRQ0STATUS, IRQ1ENABLE, IRQ1STATUS, IRQ2ENABLE, IRQ2STATUS, IRQHANDLER, IRQRETURN,
};
use machine::Core;
use machine::scalars::{kept, with_handler, with_pc};

// Steps 1 and 2. `hit`: the age is in the irq2 list.
pub fn begin_cycle(c: Core, hit: bool, io: &mut [u32; 23]) -> Core
    ensures { (regs memory disk frame : List ℕ) → packed result regs io.new memory disk frame ≡ at_fetch hit (packed c regs io.old memory disk frame) }
{
    raise_irq2(hit, io);
    enter_handler(c, io)
}

// Step 1: irq2status becomes 1 in a cycle that is in the list.
fn raise_irq2(hit: bool, io: &mut [u32; 23])
    ensures { io.new ≡ cond hit (set io.old irq2status 1) io.old }
{
    if hit {
        io[IRQ2STATUS] = 1;
    }
}

// Step 2: an interrupt that is requested is entered while the handler flag is down.
fn enter_handler(c: Core, io: &mut [u32; 23]) -> Core
    ensures { (regs memory disk frame : List ℕ) → packed result regs io.new memory disk frame ≡ interrupted (packed c regs io.old memory disk frame) }
{
    if c.handler != 0 {
        return kept(c);
    }
    if is_requested(io) {
        let to = io[IRQHANDLER];
        io[IRQRETURN] = c.pc;
        return with_handler(with_pc(c, to), 1);
    }
    kept(c)
}

// Whether an interrupt is requested: some enable and its status are both 1.
fn is_requested(io: &[u32; 23]) -> bool
    ensures { result ≡ is_requested io.now }
{
    are_both(io[IRQ0ENABLE], io[IRQ0STATUS])
        || are_both(io[IRQ1ENABLE], io[IRQ1STATUS])
        || are_both(io[IRQ2ENABLE], io[IRQ2STATUS])
}

fn are_both(enable: u32, status: u32) -> bool
    ensures { result ≡ (eqb enable 1 && eqb status 1) }
{
    enable == 1 && status == 1
}

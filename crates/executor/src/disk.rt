// out to diskcmd: what becomes of a command, as PC and status.
// Stays (1, 7): the status is the record's number, and the definition `commanded` has it.
ghost use Rattle.std.specs.Prelude.{◌≡◌, List, ℕ, length};
ghost use Rattle.machine.specs.Execution.{commanded};
ghost use Rattle.executor.specs.Lent.{packed};

use crate::progress::{end, onward};
use devices::Taken;
use devices::command::take_command;
use machine::Core;
use machine::scalars::with_drive;

// out to diskcmd; `low` are the low two bits.
pub fn command(c: Core, low: u32, io: &mut [u32; 23]) -> Core
    requires { length io.old ≡ 23 }
    ensures { (regs memory disk frame : List ℕ) → packed result regs io.new memory disk frame ≡ commanded low (packed c regs io.old memory disk frame) }
{
    match take_command(low, io) {
        Taken::Ignored => onward(c),
        Taken::Cleared => onward(c),
        Taken::Accepted(d) => onward(with_drive(c, d)),
        Taken::NoRoom => end(c, 5),
    }
}

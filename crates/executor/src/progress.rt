// What ends an instruction: the next PC, or a status.
// Stays (1): the status is the record's number, a field of the C interface.
ghost use Rattle.std.specs.Prelude.{◌≡◌, ◌+◌, ◌%◌};
ghost use Rattle.machine.specs.State.{core_status, core_pc};

use machine::Core;
use machine::scalars::{with_pc, with_status};

// The address after PC.
pub fn next(c: Core) -> u32
    ensures { result ≡ (c.pc + 1) % 4096 }
{
    (c.pc % 4096 + 1) % 4096
}

// On to the next instruction.
pub fn onward(c: Core) -> Core
    ensures { result ≡ core_pc ((c.pc + 1) % 4096) c }
{
    with_pc(c, next(c))
}

// A jump to the low 12 bits of a word.
pub fn jump(c: Core, to: u32) -> Core
    ensures { result ≡ core_pc (to % 4096) c }
{
    with_pc(c, to % 4096)
}

// A halt or a fault: the status, and nothing else.
pub fn end(c: Core, status: u32) -> Core
    ensures { result ≡ core_status status c }
{
    with_status(c, status)
}

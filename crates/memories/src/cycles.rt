// The irq2 list.
// Stays (2, 6): `FrontRead` speaks of a buffer and how much of it a file fills; a list differs from a memory in what is read and counted.
ghost use Rattle.std.specs.Prelude.{◌≤◌, ◌<◌, length};
ghost use Rattle.memories.specs.Cycles.{FrontCycles, LoadedCycles, RiseIn};

use crate::front::{FRONT, read_front};
use crate::named::accept;
use console::Name;
use files::read_irq2;
use text::Outcome;
use text::outcomes::counted;

// Reads an irq2 file of up to 16,384 cycles, or as many as there is room for, and returns the outcome; none where it can't be read, as is said. They
// stand at the front then, and rise. (Not inlined, so that the text has room on the stack only while it is read.)
#[inline(never)]
pub fn load_irq2(rt: HostRuntime, path: &[u8], cycles: &mut [u64]) -> Option<Outcome>
    ensures { LoadedCycles result cycles.old cycles.new }
{
    let mut text = [0u8; FRONT];
    let n = read_front(rt, path, &mut text)?;
    Some(fill_cycles(&text, n, cycles))
}

// Reads the cycles of a text of any length, of which the buffer holds the front in its first n bytes.
fn fill_cycles(buffer: &[u8], n: usize, cycles: &mut [u64]) -> Outcome
    requires { (229376 < length buffer.now) × (n ≤ length buffer.now) }
    ensures { FrontCycles buffer.now n result cycles.old cycles.new }
{
    counted(read_irq2(&buffer[..n], cycles))
}

// Reads the irq2 file that an argument names, and returns how many cycles it has; none where it is refused, as is said.
pub fn load_irq2_at(rt: HostRuntime, i: usize, cycles: &mut [u64]) -> Option<usize>
    ensures { RiseIn result cycles.old cycles.new }
{
    let name = Name::of_argument(rt, i);
    let outcome = load_irq2(rt, name.bytes(), cycles)?;
    accept(rt, name.bytes(), outcome)
}

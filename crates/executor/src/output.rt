// out: what an I/O register does with a value.
// Stays (1, 7): a program computes the register's number, which the definition `outputted` matches.
ghost use Rattle.std.specs.Prelude.{◌≡◌, cond, List, ℕ, ◌%◌, ◌<◌, eqb, length, get_or, set};
ghost use Rattle.isa.specs.Operations.{output as output_operation};
ghost use Rattle.isa.specs.Registers.{monitoraddr, monitordata};
ghost use Rattle.machine.specs.Execution.{outputted, executed};
ghost use Rattle.machine.specs.Soundness.{FittingIo};
ghost use Rattle.executor.specs.Lent.{packed, Ready};

use crate::disk::command;
use crate::progress::{end, onward};
use isa::io::{MONITORADDR, MONITORDATA, is_listed, low_bits};
use machine::{Core, Operands};
use words::arithmetic::plus;

// out.
pub fn output(c: Core, o: Operands, io: &mut [u32; 23], frame: &mut [u8]) -> Core
    requires { Ready io.old frame.old }
    ensures { (regs memory disk : List ℕ) → packed result regs io.new memory disk frame.new ≡ executed output_operation o (packed c regs io.old memory disk frame.old) }
{
    let a = plus(o.rs, o.rt);
    if is_listed(a) {
        return put_io(c, a, o.rm, io, frame);
    }
    end(c, 4)
}

// IO[a] = x, for a that is listed.
fn put_io(c: Core, a: u32, x: u32, io: &mut [u32; 23], frame: &mut [u8]) -> Core
    requires { (a < 23) × Ready io.old frame.old }
    ensures { (regs memory disk : List ℕ) → packed result regs io.new memory disk frame.new ≡ outputted a x (packed c regs io.old memory disk frame.old) }
{
    match a {
        14 => command(c, x % 4, io),
        17 => onward(c),
        22 => {
            paint(x, io, frame);
            onward(c)
        }
        _ => {
            io[a as usize] = low_bits(a, x);
            onward(c)
        }
    }
}

// monitorcmd: an odd value sets a place of the frame.
fn paint(x: u32, io: &[u32; 23], frame: &mut [u8])
    requires { FittingIo io.now × (length frame.old ≡ 65536) }
    ensures { frame.new ≡ cond (eqb (x % 2) 1) (set frame.old (get_or io.now monitoraddr 0) (get_or io.now monitordata 0)) frame.old }
{
    if x % 2 == 1 {
        frame[io[MONITORADDR] as usize] = io[MONITORDATA] as u8;
    }
}

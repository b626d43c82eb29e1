// An out to diskcmd.
// Stays (1, 7): diskcmd is a register of two bits that a program writes: the number is what the definition `taken` speaks of.
ghost use Rattle.std.specs.Prelude.{◌≡◌, ◌≤◌, length};
ghost use Rattle.devices.specs.Numbers.{device_registers};
ghost use Rattle.devices.specs.Command.{taken, attempted, io_after};

use crate::numbers::{DISKBUFFER, DISKCMD, DISKSECTOR, DISKSTATUS};
use crate::sizes::{COMMAND_CYCLES, LAST_BUFFER};
use crate::{Drive, Taken};

// out to diskcmd; `low` are the low two bits.
pub fn take_command(low: u32, io: &mut [u32]) -> Taken
    requires { device_registers ≤ length io.old }
    ensures { (result ≡ taken low io.old) × (io.new ≡ io_after low result io.old) }
{
    if io[DISKSTATUS] != 0 {
        return Taken::Ignored;
    }
    match low {
        1 => accept(1, io),
        2 => accept(2, io),
        _ => {
            io[DISKCMD] = 0;
            Taken::Cleared
        }
    }
}

// A read, 1, or write, 2, that finds the disk free.
fn accept(low: u32, io: &mut [u32]) -> Taken
    requires { device_registers ≤ length io.old }
    ensures { (result ≡ attempted io.old) × (io.new ≡ io_after low result io.old) }
{
    let buffer = io[DISKBUFFER];
    if LAST_BUFFER < buffer {
        return Taken::NoRoom;
    }
    let sector = io[DISKSECTOR];
    io[DISKCMD] = low;
    io[DISKSTATUS] = 1;
    Taken::Accepted(Drive {
        left: COMMAND_CYCLES,
        sector,
        buffer,
    })
}

// The names of I/O registers, put into a text.
// Stays (1, 2, 4, 7): each name is put as bytes known when it is compiled, which is fast; two matches, since one is over 40 lines; a number without a name has no text.
#![tactic(auto)]

ghost use Rattle.std.specs.Prelude.{◌+◌, ◌≤◌, length};
ghost use Rattle.text.specs.Place.{Puts};
ghost use Rattle.isa.specs.Registers.{io_name};

use text::place::put_bytes;

// Puts the name of an I/O register at a place and returns the place after it; a number that names none puts nothing.
#[tactic(auto, unfolding(isa::specs::Registers::io_name))]
pub fn put_io_name(out: &mut [u8], at: usize, n: u32) -> usize
    requires { at + length (io_name n) ≤ length out.old }
    ensures { Puts out.old at (io_name n) result out.new }
{
    match n {
        0 => put_bytes(out, at, b"irq0enable"),
        1 => put_bytes(out, at, b"irq1enable"),
        2 => put_bytes(out, at, b"irq2enable"),
        3 => put_bytes(out, at, b"irq0status"),
        4 => put_bytes(out, at, b"irq1status"),
        5 => put_bytes(out, at, b"irq2status"),
        6 => put_bytes(out, at, b"irqhandler"),
        7 => put_bytes(out, at, b"irqreturn"),
        8 => put_bytes(out, at, b"clks"),
        9 => put_bytes(out, at, b"leds"),
        10 => put_bytes(out, at, b"display7seg"),
        _ => put_device_name(out, at, n),
    }
}

// The names of the timer's, the disk's and the monitor's registers: 11 to 22.
#[tactic(auto, unfolding(isa::specs::Registers::io_name))]
fn put_device_name(out: &mut [u8], at: usize, n: u32) -> usize
    requires { (at + length (io_name n) ≤ length out.old) × (11 ≤ n) }
    ensures { Puts out.old at (io_name n) result out.new }
{
    match n {
        11 => put_bytes(out, at, b"timerenable"),
        12 => put_bytes(out, at, b"timercurrent"),
        13 => put_bytes(out, at, b"timermax"),
        14 => put_bytes(out, at, b"diskcmd"),
        15 => put_bytes(out, at, b"disksector"),
        16 => put_bytes(out, at, b"diskbuffer"),
        17 => put_bytes(out, at, b"diskstatus"),
        20 => put_bytes(out, at, b"monitoraddr"),
        21 => put_bytes(out, at, b"monitordata"),
        22 => put_bytes(out, at, b"monitorcmd"),
        _ => at,
    }
}

// The timer.
ghost use Rattle.std.specs.Prelude.{◌≡◌, ◌≤◌, length};
ghost use Rattle.devices.specs.Numbers.{device_registers};
ghost use Rattle.devices.specs.Timer.{timed};

use crate::numbers::{IRQ0STATUS, TIMERCURRENT, TIMERENABLE, TIMERMAX};

// The timer's step of a cycle.
pub fn step_timer(io: &mut [u32])
    requires { device_registers ≤ length io.old }
    ensures { io.new ≡ timed io.old }
{
    if io[TIMERENABLE] != 1 {
        return;
    }
    let current = io[TIMERCURRENT];
    if current == io[TIMERMAX] {
        io[IRQ0STATUS] = 1;
        io[TIMERCURRENT] = 0;
        return;
    }
    io[TIMERCURRENT] = current.wrapping_add(1);
}

// The clock.
// Stays (5): these devices fit any computer's registers, so their contracts ask for a number of them and no more.
ghost use Rattle.std.specs.Prelude.{◌≡◌, ◌≤◌, length};
ghost use Rattle.devices.specs.Numbers.{device_registers};
ghost use Rattle.devices.specs.Devices.{clocked};

use crate::numbers::CLKS;

// The clock's step of a cycle.
pub fn step_clock(io: &mut [u32])
    requires { device_registers ≤ length io.old }
    ensures { io.new ≡ clocked io.old }
{
    io[CLKS] = io[CLKS].wrapping_add(1);
}

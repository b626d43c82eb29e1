// Steps 5 to 7 of a cycle.
// Stays (5): the C interface lends the memories one by one, and the borrow of each ends with its step.
ghost use Rattle.std.specs.Prelude.{◌≡◌, ◌≤◌};
ghost use Rattle.devices.specs.Bus.{bus};
ghost use Rattle.devices.specs.Disk.{HasSector};
ghost use Rattle.devices.specs.Devices.{devices_stepped};

use crate::Drive;
use crate::clock::step_clock;
use crate::disk::step_disk;
use crate::timer::step_timer;

// The devices' steps of a cycle; returns the disk's part of the record. `began` are its cycles to go when the cycle began.
pub fn step_devices(
    began: u32,
    d: Drive,
    io: &mut [u32],
    memory: &mut [u32],
    disk: &mut [u32],
) -> Drive
    requires { (began ≤ d.left) × HasSector d io.old memory.old disk.old }
    ensures { bus result io.new memory.new disk.new ≡ devices_stepped began (bus d io.old memory.old disk.old) }
{
    step_timer(io);
    let r = step_disk(began, d, io, memory, disk);
    step_clock(io);
    r
}

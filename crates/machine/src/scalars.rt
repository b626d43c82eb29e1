// One of the record's scalars changed, the others kept: where some are kept, they are written out here alone.
// Stays (2, 4): the fields are written out one by one for speed, here alone: copied whole a cycle took 21 instructions more in place of 5 (docs/BENCHMARKS.md).
ghost use Rattle.std.specs.Prelude.{◌≡◌};
ghost use Rattle.machine.specs.State.{core_status, core_handler, core_pc, core_age, core_drive};

use crate::Core;
use devices::Drive;

pub fn with_status(c: Core, status: u32) -> Core
    ensures { result ≡ core_status status c }
{
    core_of(status, c.handler, c.pc, c.age, c.drive)
}

pub fn with_handler(c: Core, handler: u32) -> Core
    ensures { result ≡ core_handler handler c }
{
    core_of(c.status, handler, c.pc, c.age, c.drive)
}

pub fn with_pc(c: Core, pc: u32) -> Core
    ensures { result ≡ core_pc pc c }
{
    core_of(c.status, c.handler, pc, c.age, c.drive)
}

pub fn with_age(c: Core, age: u64) -> Core
    ensures { result ≡ core_age age c }
{
    core_of(c.status, c.handler, c.pc, age, c.drive)
}

pub fn with_drive(c: Core, drive: Drive) -> Core
    ensures { result ≡ core_drive drive c }
{
    core_of(c.status, c.handler, c.pc, c.age, drive)
}

// The same scalars.
pub fn kept(c: Core) -> Core
    ensures { result ≡ c }
{
    core_of(c.status, c.handler, c.pc, c.age, c.drive)
}

// The scalars, field by field: copied whole, two of them would share a machine word, which costs every cycle some steps.
fn core_of(status: u32, handler: u32, pc: u32, age: u64, drive: Drive) -> Core
    ensures { result ≡ record { status = status; handler = handler; pc = pc; age = age; drive = drive } }
{
    let d = Drive {
        left: drive.left,
        sector: drive.sector,
        buffer: drive.buffer,
    };
    Core {
        status,
        handler,
        pc,
        age,
        drive: d,
    }
}

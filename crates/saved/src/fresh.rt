// The fresh record.
// Stays (4): the fresh record has a definition and its own contract; a derived Default has none.
ghost use Rattle.std.specs.Prelude.{◌≡◌};
ghost use Rattle.saved.specs.Calls.{fresh_record};

use devices::Drive;
use machine::{Core, Record};

// The fresh record: all zero.
pub fn fresh_record() -> Record
    ensures { result ≡ fresh_record }
{
    let drive = Drive {
        left: 0,
        sector: 0,
        buffer: 0,
    };
    let core = Core {
        status: 0,
        handler: 0,
        pc: 0,
        age: 0,
        drive,
    };
    Record {
        core,
        regs: [0; 13],
        io: [0; 23],
    }
}

// The fields of a record, in the order of their bits, and the record of fields.
// Stays (2, 4, 6): the two editions have other fields and places, each with its definition (`record_of`, `record_one`); what they share is `record_from`.
ghost use Rattle.std.specs.Prelude.{◌≡◌, true};
ghost use Rattle.bitpack.specs.Packed.{fit};
ghost use Rattle.saved.specs.Layout.{widths, fields_of, record_of, widths_one, record_one, record_from};
ghost use Rattle.saved.specs.Parts.{HasRecord};

use crate::copies::{shorten, widen};
use crate::layout::{EDITION, FIRST_IO, FIRST_REGISTER, FIRST_REGISTER_ONE, LAST};
use devices::Drive;
use machine::{Core, Record};

// The fields of a record.
pub fn fields(r: Record) -> [u64; 45]
    ensures { result ≡ fields_of r }
{
    let c = r.core;
    let d = c.drive;
    let mut f: [u64; 45] = [0; 45];
    f[0] = EDITION;
    f[1] = u64::from(c.status);
    f[2] = u64::from(c.handler);
    f[3] = u64::from(c.pc);
    f[4] = c.age;
    f[5] = u64::from(d.left);
    f[6] = u64::from(d.sector);
    f[7] = u64::from(d.buffer);
    widen(&r.regs, &mut f[FIRST_REGISTER..FIRST_IO]);
    widen(&r.io, &mut f[FIRST_IO..LAST]);
    f
}

// The record of fields.
pub fn record_of(f: [u64; 45]) -> Record
    requires { fit widths f ≡ true }
    ensures { result ≡ record_of f }
{
    let d = Drive {
        left: f[5] as u32,
        sector: f[6] as u32,
        buffer: f[7] as u32,
    };
    record_from(FIRST_REGISTER, d, &f)
}

// The record of fields of edition 1.
pub fn record_one(f: [u64; 43]) -> Record
    requires { fit widths_one f ≡ true }
    ensures { result ≡ record_one f }
{
    let d = Drive {
        left: f[5] as u32,
        sector: 0,
        buffer: 0,
    };
    record_from(FIRST_REGISTER_ONE, d, &f)
}

// The record of fields that have R3 at place n, and of a drive.
fn record_from(n: usize, d: Drive, f: &[u64]) -> Record
    requires { HasRecord n f.now }
    ensures { result ≡ record_from n d f.now }
{
    let mut regs: [u32; 13] = [0; 13];
    let mut io: [u32; 23] = [0; 23];
    let middle = n + 13;
    shorten(&f[n..middle], &mut regs);
    shorten(&f[middle..middle + 23], &mut io);
    let core = Core {
        status: f[1] as u32,
        handler: f[2] as u32,
        pc: f[3] as u32,
        age: f[4],
        drive: d,
    };
    Record { core, regs, io }
}

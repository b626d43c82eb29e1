// A record saved and read again and again: what bench/ measures.
// Stays (1, 3, 4, 7): the C interface has a flag that chooses the save; the loop counts by the age in the record, which a copy in each turn would slow.
#![tactic(auto)]

ghost use Rattle.std.specs.Prelude.{◌≡◌, ◌-◌};
ghost use Rattle.devices.specs.Bus.{drive_of};
ghost use Rattle.saved.specs.Answers.{saved_outcome};
ghost use Rattle.saved.specs.Calls.{save_bytes};
ghost use Rattle.bench_saved.specs.Turns.{one, given, saves, saves_done, loads, loads_done};

use crate::by_bytes::save_by_bytes;
use devices::Drive;
use machine::{Core, Record};
use saved::{SaveError, fresh_record, load, save};

mod by_bytes;

// Saves a record at its age and at each after it below `to`, into the same bytes; returns how many saves were accepted. `by_bytes` chooses the save as
// it was before change (iii), whose promise is the same.
#[unsafe(no_mangle)]
pub extern "C" fn simp_bench_saves(
    status: u32,
    handler: u32,
    pc: u32,
    age: u64,
    left: u32,
    sector: u32,
    buffer: u32,
    regs: &[u32; 13],
    io: &[u32; 23],
    by_bytes: bool,
    to: u64,
    bytes: &mut [u8],
) -> u64
    ensures value { result ≡ saves_done (given status handler pc age (drive_of left sector buffer) regs.now io.now) (to - age) bytes.old }
    ensures bytes_after { bytes.new ≡ saves (given status handler pc age (drive_of left sector buffer) regs.now io.now) (to - age) bytes.old }
{
    let drive = Drive {
        left,
        sector,
        buffer,
    };
    let core = Core {
        status,
        handler,
        pc,
        age,
        drive,
    };
    let r = Record {
        core,
        regs: *regs,
        io: *io,
    };
    make_saves(by_bytes, r, to, bytes)
}

// The loop. It counts by the age in the record itself, which a copy of the record in each turn would slow.
fn make_saves(by_bytes: bool, r: Record, to: u64, bytes: &mut [u8]) -> u64
    ensures value { result ≡ saves_done r (to - r.core.age) bytes.old }
    ensures bytes_after { bytes.new ≡ saves r (to - r.core.age) bytes.old }
{
    let mut s = r;
    let mut n = 0;
    while s.core.age < to {
        let answer = if by_bytes {
            save_by_bytes(s, bytes)
        } else {
            save(s, bytes)
        };
        n += is_saved(answer);
        s.core.age += 1;
    }
    n
}

// Reads the record of bytes n times and saves the one that was read last to `out`; returns how many readings were accepted.
#[unsafe(no_mangle)]
pub extern "C" fn simp_bench_loads(bytes: &[u8], n: u64, out: &mut [u8]) -> u64
    ensures { (result ≡ loads_done n bytes.now) × (out.new ≡ save_bytes (loads n bytes.now) out.old) }
{
    let mut r = fresh_record();
    let mut k = 0;
    for _ in 0..n {
        match load(bytes) {
            Ok(state) => {
                r = state;
                k += 1;
            }
            Err(_) => r = fresh_record(),
        }
    }
    let _ = save(r, out);
    k
}

// 1 for an accepted save.
fn is_saved(answer: Result<(), SaveError>) -> u64
    ensures { result ≡ one (saved_outcome answer) }
{
    match answer {
        Ok(()) => 1,
        Err(SaveError::WrongLength) => 0,
        Err(SaveError::Unsound) => 0,
    }
}

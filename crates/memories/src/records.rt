// Saved records.
// Stays (2, 6): `FrontRead` speaks of a buffer and how much of it a file fills; the two lengths are those of the two editions.
ghost use Rattle.std.specs.Prelude.{◌≤◌, ◌<◌, length};
ghost use Rattle.saved.specs.Sound.{is_sound};
ghost use Rattle.memories.specs.Records.{FrontLoaded, SoundRead};
ghost use Rattle.memories.specs.NewFiles.{NewWritten};

use crate::front::read_front_at;
use crate::named::{accept_at, refuse_at};
use crate::new_files::write_new_bytes;
use console::Writing;
use machine::Record;
use saved::{load, save};
use text::outcomes::{Refusal, done};

// The bytes of a record that is saved.
const BYTES: usize = 94;

// The bytes that decide how a record is read: those of the longer edition, and one more.
const FRONT: usize = 95;

// Reads the saved record that an argument names; none where it is refused, as is said.
pub fn load_record_at(rt: HostRuntime, i: usize) -> Option<Record>
    ensures { SoundRead result }
{
    let mut bytes = [0u8; FRONT];
    let n = read_front_at(rt, i, &mut bytes)?;
    record_of(rt, i, &bytes, n)
}

// The record of a file of any length, of which the buffer holds the front in its first n bytes; none where it is refused, as is said.
fn record_of(rt: HostRuntime, i: usize, buffer: &[u8], n: usize) -> Option<Record>
    requires { (94 < length buffer.now) × (n ≤ length buffer.now) }
    ensures { FrontLoaded buffer.now n result }
{
    match load(&buffer[..n]) {
        Ok(state) => Some(state),
        Err(error) => {
            let outcome = error.outcome();
            refuse_at(rt, i, outcome.number, outcome.place);
            None
        }
    }
}

// Writes a record as a new file, under the name that an argument gives; says why where it is refused.
pub fn write_new_record(rt: HostRuntime, i: usize, state: Record) -> Option<Writing>
    ensures { NewWritten (is_sound state) result }
{
    let mut bytes = [0u8; BYTES];
    accept_at(rt, i, done(save(state, &mut bytes)))?;
    write_new_bytes(rt, i, &bytes)
}

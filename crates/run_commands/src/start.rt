// What a resumed run starts from.
ghost use Rattle.std.specs.Prelude.{◌≡◌, false};
ghost use Rattle.run_commands.specs.declared.start.Start.TheVariants.{Saved};
ghost use Rattle.run_commands.specs.Start.{StartRecord, StartFrame};

use console::say;
use machine::Record;
use memories::{is_device_at, is_missing_at, load_frame_at, load_record_at, say_at};
use saved::fresh_record;

// How a resumed run starts.
#[derive(Clone, Copy, PartialEq, Eq)]
pub enum Start {
    // With the fresh record: there is no saved one.
    Fresh,
    // With a saved record.
    Saved,
}

// How the run starts whose saved record an argument names. (What a file system has can't be said in a contract.)
pub fn start_at(rt: HostRuntime, record: usize) -> Start {
    if is_missing_at(rt, record) {
        Start::Fresh
    } else {
        Start::Saved
    }
}

// Whether a run that starts fresh would go on with a log that is there, as with a record's name that is mistaken; says so.
pub fn is_log_without_record(rt: HostRuntime, log: usize, start: Start) -> bool
    ensures { start ≡ Saved → result ≡ false }
{
    if start == Start::Saved || is_missing_at(rt, log) || is_device_at(rt, log) {
        return false;
    }
    say_at(
        rt,
        log,
        b" is there, but no saved record: a run that starts fresh wants a new log\n",
    );
    true
}

// The record that an argument names, or none where it is refused, as is said; the fresh one where the run starts with it.
pub fn start_record(rt: HostRuntime, i: usize, start: Start) -> Option<Record>
    ensures { StartRecord start result }
{
    match start {
        Start::Fresh => {
            say(rt, b"no saved record: the run starts with the fresh one\n");
            Some(fresh_record())
        }
        Start::Saved => load_record_at(rt, i),
    }
}

// Reads the frame that an argument names into one that is black, if it is accepted. A fresh run may have none.
pub fn start_frame(rt: HostRuntime, i: usize, start: Start, frame: &mut [u8]) -> Option<()>
    ensures { StartFrame start result frame.old frame.new }
{
    if start == Start::Fresh && is_missing_at(rt, i) {
        return Some(());
    }
    load_frame_at(rt, i, frame)
}

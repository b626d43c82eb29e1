// The files that the lines of a log go to: the 7th, 8th, 10th and 11th of the fourteen.
// Stays (1, 2, 7): the four files have names and places of their own; each is tried, and the answers are joined.
ghost use Rattle.std.specs.Prelude.{◌≡◌, true, false, ◌+◌, ◌^◌, ◌<◌};
ghost use Rattle.console.specs.Writings.{is_no_file};
ghost use Rattle.run_commands.specs.Logs.{are_open};

use crate::LogFiles;
use console::Writing;
use memories::{begin_at, commit_at, drop_at, end_at};

// Begins them.
pub fn begin_logs(rt: HostRuntime, first: usize) -> LogFiles
    requires { first + 14 < 2 ^ 64 }
{
    LogFiles {
        trace: begin_at(rt, first + 6),
        hwregtrace: begin_at(rt, first + 7),
        leds: begin_at(rt, first + 9),
        display7seg: begin_at(rt, first + 10),
    }
}

// Whether all are open.
pub fn are_open(logs: &LogFiles) -> bool
    ensures { result ≡ are_open logs.now }
{
    logs.trace.is_some()
        && logs.hwregtrace.is_some()
        && logs.leds.is_some()
        && logs.display7seg.is_some()
}

// Closes and removes them; the old ones stay.
pub fn drop_logs(rt: HostRuntime, first: usize, logs: LogFiles)
    requires { first + 14 < 2 ^ 64 }
{
    drop_at(rt, first + 6, logs.trace);
    drop_at(rt, first + 7, logs.hwregtrace);
    drop_at(rt, first + 9, logs.leds);
    drop_at(rt, first + 10, logs.display7seg);
}

// Closes them and puts them into their places; answers whether all are there.
pub fn commit_logs(rt: HostRuntime, first: usize, logs: LogFiles) -> bool
    requires { first + 14 < 2 ^ 64 }
    ensures { result ≡ true → are_open logs ≡ true }
{
    let trace = commit_log(rt, first + 6, logs.trace);
    let hwregtrace = commit_log(rt, first + 7, logs.hwregtrace);
    let leds = commit_log(rt, first + 9, logs.leds);
    let display7seg = commit_log(rt, first + 10, logs.display7seg);
    trace && hwregtrace && leds && display7seg
}

// Closes one and puts it into its place; answers whether it is there.
fn commit_log(rt: HostRuntime, i: usize, log: Option<Writing>) -> bool
    ensures { result ≡ true → is_no_file log ≡ false }
{
    commit_at(rt, i, end_at(rt, i, log))
}

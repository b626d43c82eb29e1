// The command `sim`: document 003's simulator, whose fourteen files stand in its order.
// Stays (4, 5, 6, 7): the arguments' places are the course paper's order, so each file has its own line; a copy of the record outlives the end's.
ghost use Rattle.std.specs.Prelude.{◌≡◌, true, ◌+◌, ◌^◌, ◌<◌};
ghost use Rattle.files.specs.Irq2File.{rising};

use crate::LogFiles;
use crate::ends::write_ends;
use crate::logs::{are_open, begin_logs, commit_logs, drop_logs};
use crate::report::{say_log_unwritten, say_stop};
use console::say;
use long_run::{Sink, run_on};
use memories::{load_data_at, load_disk_at, load_image_at, load_irq2_at, names_clash};
use saved::fresh_record;

// Reads the instruction file, the file of data, the disk and the irq2 file that the arguments from `first` on name, runs the program from the fresh
// record with so much budget, and writes the ten files that the next arguments name.
pub fn simulate(rt: HostRuntime, first: usize, budget: u64)
    requires { first + 14 < 2 ^ 64 }
{
    if names_clash(rt, first, 4, 14) {
        return;
    }
    let _ = simulate_files(rt, first, budget);
}

// The same with names that do not clash; none where a file is refused, as is said.
fn simulate_files(rt: HostRuntime, first: usize, budget: u64) -> Option<()>
    requires { first + 14 < 2 ^ 64 }
{
    let mut image = [0u64; 4096];
    let mut memory = [0u32; 4096];
    let mut disk = [0u32; 16384];
    let mut cycles = [0u64; 16384];
    load_image_at(rt, first, &mut image)?;
    load_data_at(rt, first + 1, &mut memory)?;
    load_disk_at(rt, first + 2, &mut disk)?;
    let n = load_irq2_at(rt, first + 3, &mut cycles)?;
    run_logged(
        rt,
        first,
        &image,
        &mut memory,
        &mut disk,
        &cycles[..n],
        budget,
    );
    Some(())
}

// Runs the program, its log going to four files.
fn run_logged(
    rt: HostRuntime,
    first: usize,
    image: &[u64; 4096],
    memory: &mut [u32; 4096],
    disk: &mut [u32; 16384],
    irq2: &[u64],
    budget: u64,
)
    requires { (first + 14 < 2 ^ 64) × (rising irq2.now ≡ true) }
{
    let logs = begin_logs(rt, first);
    if !are_open(&logs) {
        drop_logs(rt, first, logs);
        return;
    }
    run_split(rt, first, image, memory, disk, irq2, budget, logs);
}

// The same with the four files open.
fn run_split(
    rt: HostRuntime,
    first: usize,
    image: &[u64; 4096],
    memory: &mut [u32; 4096],
    disk: &mut [u32; 16384],
    irq2: &[u64],
    budget: u64,
    logs: LogFiles,
)
    requires { (first + 14 < 2 ^ 64) × (rising irq2.now ≡ true) }
{
    let mut frame = [0u8; 65536];
    let start = fresh_record();
    let to = Sink::Split(&logs.trace, &logs.hwregtrace, &logs.leds, &logs.display7seg);
    let end = run_on(rt, start, image, memory, disk, &mut frame, irq2, budget, to);
    if !end.written {
        drop_logs(rt, first, logs);
        say_log_unwritten(rt);
        return;
    }
    let has_logs = commit_logs(rt, first, logs);
    let state = end.state;
    let has_ends = write_ends(rt, first, state, memory, disk, &frame);
    say_stop(rt, state.core);
    if !(has_logs && has_ends) {
        say(rt, b"not all files are written\n");
    }
}

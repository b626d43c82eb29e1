// The command `resume`: a run that goes on where another stopped.
// Stays (4, 5, 6, 7): the arguments' places are the command's order, so each file has its own line.
ghost use Rattle.std.specs.Prelude.{◌≡◌, true, ◌+◌, ◌^◌, ◌<◌};
ghost use Rattle.files.specs.Irq2File.{rising};
ghost use Rattle.machine.specs.Soundness.{Sound};

use crate::report::{say_log_unwritten, say_stop};
use crate::start::{is_log_without_record, start_at, start_frame, start_record};
use crate::writing_back::write_back;
use long_run::{Sink, run_on};
use machine::Record;
use memories::{
    clashes_with_one, drop_at, end_at, load_data_at, load_disk_at, load_image_at, load_irq2_at,
    more_at, names_clash, read_budget,
};

// Reads the instruction file, the file of data, the disk, the frame, the saved record, the irq2 file and the budget that the arguments from `first`
// on name or give, runs on, and writes the memories and the record back. The log goes to the end of the file that the last argument names.
pub fn resume(rt: HostRuntime, first: usize)
    requires { first + 8 < 2 ^ 64 }
{
    if has_clash(rt, first) {
        return;
    }
    let _ = resume_files(rt, first);
}

// The same with names that do not clash; none where it is not done, as is said. (Not inlined, so that the memories have room on the stack only in a
// resumed run.)
#[inline(never)]
fn resume_files(rt: HostRuntime, first: usize) -> Option<()>
    requires { first + 8 < 2 ^ 64 }
{
    let budget = read_budget(rt, first + 6)?;
    let mut image = [0u64; 4096];
    let mut cycles = [0u64; 16384];
    load_image_at(rt, first, &mut image)?;
    let n = load_irq2_at(rt, first + 5, &mut cycles)?;
    resume_image(rt, first, &image, &cycles[..n], budget)
}

// Whether one of the files that are written has the name of another file: the four after the instruction file, which is read, and the log; the
// irq2 file is read too, and what stands between it and the log is a number.
fn has_clash(rt: HostRuntime, first: usize) -> bool
    requires { first + 8 < 2 ^ 64 }
{
    names_clash(rt, first, 1, 5)
        || clashes_with_one(rt, first + 5, first + 1, 4)
        || clashes_with_one(rt, first + 7, first, 6)
}

// The same with the image and the irq2 list.
fn resume_image(
    rt: HostRuntime,
    first: usize,
    image: &[u64; 4096],
    irq2: &[u64],
    budget: u64,
) -> Option<()>
    requires { (first + 8 < 2 ^ 64) × (rising irq2.now ≡ true) }
{
    let mut memory = [0u32; 4096];
    let mut disk = [0u32; 16384];
    let mut frame = [0u8; 65536];
    load_data_at(rt, first + 1, &mut memory)?;
    load_disk_at(rt, first + 2, &mut disk)?;
    let start = start_at(rt, first + 4);
    if is_log_without_record(rt, first + 7, start) {
        return None;
    }
    start_frame(rt, first + 3, start, &mut frame)?;
    let state = start_record(rt, first + 4, start)?;
    run_more(
        rt,
        first,
        state,
        image,
        &mut memory,
        &mut disk,
        &mut frame,
        irq2,
        budget,
    )
}

// Runs on, its log going to the end of a file.
fn run_more(
    rt: HostRuntime,
    first: usize,
    state: Record,
    image: &[u64; 4096],
    memory: &mut [u32; 4096],
    disk: &mut [u32; 16384],
    frame: &mut [u8; 65536],
    irq2: &[u64],
    budget: u64,
) -> Option<()>
    requires { (first + 8 < 2 ^ 64) × (rising irq2.now ≡ true) × Sound state.core state.regs state.io }
{
    let log = more_at(rt, first + 7);
    if log.is_none() {
        return None;
    }
    let end = run_on(
        rt,
        state,
        image,
        memory,
        disk,
        frame,
        irq2,
        budget,
        Sink::Whole(&log),
    );
    if !end.written {
        drop_at(rt, first + 7, log);
        say_log_unwritten(rt);
        return None;
    }
    let then = end.state;
    let whole = end_at(rt, first + 7, log);
    if write_back(rt, first, whole, then, memory, disk, frame) {
        say_stop(rt, then.core);
    }
    Some(())
}

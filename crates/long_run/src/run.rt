// Runs whose log goes out in pieces.
ghost use Rattle.std.specs.Prelude.{◌≡◌, true, ◌≤◌};
ghost use Rattle.files.specs.Irq2File.{rising};
ghost use Rattle.machine.specs.State.{fresh_machine};
ghost use Rattle.machine.specs.Soundness.{Sound};
ghost use Rattle.runner.specs.Lab.{machine_of};
ghost use Rattle.long_run.specs.Pieces.{whole_budget, is_log_full, Piece, Ends};

use crate::progress::tell_progress;
use crate::send::send;
use crate::{RunEnd, Sink};
use machine::Record;
use runner::{Reason, RunError, RunReport, run};
use saved::fresh_record;

// The cycles that a program may make.
const BUDGET: u64 = 100_000;

// Runs an image with an irq2 list from the fresh record until the budget is spent or the machine has stopped, and prints the log.
pub fn run_budget(
    rt: HostRuntime,
    image: &[u64; 4096],
    memory: &mut [u32; 4096],
    disk: &mut [u32; 16384],
    frame: &mut [u8; 65536],
    irq2: &[u64],
) -> RunEnd
    requires { rising irq2.now ≡ true }
    ensures { Ends image.now irq2.now whole_budget (fresh_machine memory.old disk.old frame.old) result (machine_of result.state memory.new disk.new frame.new) }
{
    let fresh = fresh_record();
    run_on(
        rt,
        fresh,
        image,
        memory,
        disk,
        frame,
        irq2,
        BUDGET,
        Sink::Output,
    )
}

// Runs an image with an irq2 list from a sound record until the budget is spent, the machine has stopped or is at the cycle limit, or the log can't
// be written. The log goes out in pieces; long runs tell on standard error how far they are.
pub fn run_on(
    rt: HostRuntime,
    start: Record,
    image: &[u64; 4096],
    memory: &mut [u32; 4096],
    disk: &mut [u32; 16384],
    frame: &mut [u8; 65536],
    irq2: &[u64],
    budget: u64,
    to: Sink<'_>,
) -> RunEnd
    requires { Sound start.core start.regs start.io × (rising irq2.now ≡ true) }
    ensures { Ends image.now irq2.now budget (machine_of start memory.old disk.old frame.old) result (machine_of result.state memory.new disk.new frame.new) }
{
    let mut log = [0u8; 65536];
    let mut state = start;
    let mut left = budget;
    loop {
        let piece = run_piece(state, image, memory, disk, frame, irq2, left, &mut log);
        let is_full = is_log_full(piece.answer);
        let is_sent = send(rt, &log[..piece.bytes], to);
        state = piece.state;
        left -= piece.cycles;
        let made = budget - left;
        if !(is_sent & is_full) {
            return RunEnd {
                state,
                cycles: made,
                written: is_sent,
            };
        }
        tell_progress(rt, state.core.age, piece.cycles);
    }
}

// Runs on with so much budget until the log is full or the run is over.
fn run_piece(
    state: Record,
    image: &[u64; 4096],
    memory: &mut [u32; 4096],
    disk: &mut [u32; 16384],
    frame: &mut [u8; 65536],
    irq2: &[u64],
    budget: u64,
    log: &mut [u8; 65536],
) -> RunReport
    requires { Sound state.core state.regs state.io × (rising irq2.now ≡ true) }
    ensures piece { Piece image.now irq2.now budget (machine_of state memory.old disk.old frame.old) result (machine_of result.state memory.new disk.new frame.new) log.new }
    ensures bytes_bound { result.bytes ≤ 65536 }
{
    run(state, image, memory, disk, frame, irq2, budget, log)
}

// Whether a run ended because its log was full.
fn is_log_full(answer: Result<Reason, RunError>) -> bool
    ensures { result ≡ is_log_full answer }
{
    matches!(answer, Ok(Reason::LogFull))
}

// A run.
// Stays (1, 4, 5): a refused run's report is made in one place; the C interface lends the memories one by one.
ghost use Rattle.std.specs.Prelude.{◌≡◌, true, Err, length};
ghost use Rattle.files.specs.Irq2File.{rising};
ghost use Rattle.saved.specs.Sound.{is_sound};
ghost use Rattle.executor.specs.Lent.{Sized};
ghost use Rattle.claim.specs.Calls.{run_call, ran, run_from};
ghost use Rattle.runner.specs.Lab.{lab, simp, code_of, machine_of, standing_of};
ghost use Rattle.runner.specs.Answers.{done_of};

use crate::cycles::make_cycles;
use crate::questions::are_lengths;
use crate::{RunError, RunReport};
use executor::registers::Registers;
use irq2_list::is_rising;
use machine::Record;
use saved::is_sound;
use text::hex_words::HexTable;

// Makes cycles until the budget is spent, the machine has stopped or is at the cycle limit, or the lines of the next cycle don't fit the log. A
// refusal changes nothing.
pub fn run(
    state: Record,
    image: &[u64],
    memory: &mut [u32],
    disk: &mut [u32],
    frame: &mut [u8],
    irq2: &[u64],
    budget: u64,
    log: &mut [u8],
) -> RunReport
    ensures { done_of result image.now memory.new disk.new frame.new log.new ≡ run_call lab budget log.old irq2.now (standing_of image.now state memory.old disk.old frame.old) }
{
    if !are_lengths(image.len(), memory.len(), disk.len(), frame.len()) {
        return refused(state, RunError::WrongLength);
    }
    if !is_rising(irq2) {
        return refused(state, RunError::NotRising);
    }
    if !is_sound(state) {
        return refused(state, RunError::Unsound);
    }
    run_sound(state, image, memory, disk, frame, irq2, budget, log)
}

// A run that is refused hands its record back.
fn refused(state: Record, error: RunError) -> RunReport
    ensures { result ≡ record { state = state; cycles = 0; bytes = 0; answer = Err error } }
{
    RunReport {
        state,
        cycles: 0,
        bytes: 0,
        answer: Err(error),
    }
}

// A run whose questions got a yes.
fn run_sound(
    state: Record,
    image: &[u64],
    memory: &mut [u32],
    disk: &mut [u32],
    frame: &mut [u8],
    irq2: &[u64],
    budget: u64,
    log: &mut [u8],
) -> RunReport
    requires { (is_sound state ≡ true) × ((rising irq2.now ≡ true) × ((length image.now ≡ 4096) × Sized memory.old disk.old frame.old)) }
    ensures { done_of result image.now memory.new disk.new frame.new log.new ≡ ran lab (standing_of image.now state memory.old disk.old frame.old) log.old (run_from simp (code_of image.now irq2.now) budget (length log.old) (machine_of state memory.old disk.old frame.old)) }
{
    let table = HexTable::new();
    let mut registers = Registers::of_record(&state.regs, &table);
    let mut io = state.io;
    let e = make_cycles(
        state.core,
        &mut registers,
        &mut io,
        image,
        memory,
        disk,
        frame,
        irq2,
        budget,
        log,
        &table,
    );
    let record = Record {
        core: e.core,
        regs: registers.record(),
        io,
    };
    RunReport {
        state: record,
        cycles: e.cycles,
        bytes: e.at,
        answer: Ok(e.reason),
    }
}

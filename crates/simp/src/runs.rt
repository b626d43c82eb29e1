// A run.
// Stays (1, 4, 6): the C interface has a report as three numbers, and keeps the record's where the number is not 0.
ghost use Rattle.std.specs.Prelude.{◌≡◌, cond, [], ◌∷◌, eqb, length};
ghost use Rattle.simp.specs.Numbers.{record_numbers, numbers_of};
ghost use Rattle.simp.specs.Runs.{report_numbers, simp_run, Runs};

use crate::WRONG_LENGTH;
use crate::numbers::{RECORD_NUMBERS, put_numbers, record_of};
use machine::Record;
use runner::run;

// How many numbers a report is: cycles, log bytes, reason.
const REPORT_NUMBERS: usize = 3;

// Runs the machine of 40 numbers and lent memories.
pub fn simp_run(
    numbers: &mut [u64],
    image: &[u64],
    memory: &mut [u32],
    disk: &mut [u32],
    frame: &mut [u8],
    irq2: &[u64],
    budget: u64,
    log: &mut [u8],
    report: &mut [u64],
) -> u32
    ensures { Runs (simp_run numbers.old image.now memory.old disk.old frame.old irq2.now budget log.old report.old) numbers.old report.old result numbers.new memory.new disk.new frame.new log.new report.new }
{
    if report.len() != REPORT_NUMBERS {
        return WRONG_LENGTH;
    }
    if numbers.len() != RECORD_NUMBERS {
        put_report(0, 0, 0, report);
        return WRONG_LENGTH;
    }
    let r = run(
        record_of(numbers),
        image,
        memory,
        disk,
        frame,
        irq2,
        budget,
        log,
    );
    put_report(r.cycles, r.bytes as u64, r.reason(), report);
    let number = r.outcome().number;
    put_record(number, r.state, numbers);
    number
}

// Sets the three numbers of a report.
fn put_report(cycles: u64, bytes: u64, reason: u64, report: &mut [u64])
    requires { length report.old ≡ report_numbers }
    ensures { report.new ≡ (cycles ∷ bytes ∷ reason ∷ []) }
{
    report[0] = cycles;
    report[1] = bytes;
    report[2] = reason;
}

// Sets 40 numbers to those of the record that an accepted run leaves.
fn put_record(number: u32, state: Record, numbers: &mut [u64])
    requires { length numbers.old ≡ record_numbers }
    ensures { numbers.new ≡ cond (eqb number 0) (numbers_of state) numbers.old }
{
    if number == 0 {
        put_numbers(state, numbers);
    }
}

// The reader of the irq2 file.
// Stays (3): a turn goes over a line, whose end is found as it is read; the place is no counted index.
ghost use Rattle.std.specs.Prelude.{◌≡◌, length};
ghost use Rattle.std.specs.List.{AllPass};
ghost use Rattle.text.specs.Lines.{lines};
ghost use Rattle.text.specs.Place.{put};
ghost use Rattle.files.specs.Irq2File.{is_cycle, line_cycle, irq2_outcome, file_cycles};
ghost use Rattle.files.specs.Answers.{cycles_read_outcome};
ghost use Rattle.files.specs.Promises.{Irq2Read};

use crate::CycleError;
use crate::sizes::CYCLE_LIMIT;
use text::digits::DigitTable;
use text::lines::short_line_end;

// Reads an irq2 file: one cycle a line, strictly rising, into the front of a slice of any length.
pub fn read_irq2(text: &[u8], cycles: &mut [u64]) -> Result<usize, CycleError>
    ensures { Irq2Read text.now cycles.old result cycles.new }
{
    let values = DigitTable::new();
    let count = check_cycles(text, cycles.len(), &values)?;
    fill_cycles(text, &mut cycles[..count], &values);
    Ok(count)
}

// Asks the questions of an irq2 file's lines, and counts its cycles.
fn check_cycles(text: &[u8], room: usize, values: &DigitTable) -> Result<usize, CycleError>
    ensures { cycles_read_outcome result ≡ irq2_outcome room text.now }
{
    let mut at = 0;
    let mut i = 0;
    let mut least = 0;
    while at < text.len() {
        if room <= i {
            return Err(CycleError::NoWord(i + 1));
        }
        let end = short_line_end(text, at);
        let Some(cycle) = line_cycle(&text[at..end], values) else {
            return Err(CycleError::BadCycle(i + 1));
        };
        if cycle < least {
            return Err(CycleError::NotRising(i + 1));
        }
        least = cycle + 1;
        at = end + 1;
        i += 1;
    }
    Ok(i)
}

// The cycle that a line is: 1 to 13 decimal digits below the cycle limit.
fn line_cycle(line: &[u8], values: &DigitTable) -> Option<u64>
    ensures { result ≡ line_cycle line.now }
{
    if line.is_empty() || 13 < line.len() {
        return None;
    }
    values
        .read_digits(line, 10)
        .filter(|cycle| *cycle < CYCLE_LIMIT)
}

// Sets the cycles, as many as a good file has lines. The text ends the loop: a `for` over the cycles took 8% longer.
fn fill_cycles(text: &[u8], cycles: &mut [u64], values: &DigitTable)
    requires good { AllPass is_cycle (lines text.now) }
    requires places { length cycles.old ≡ length (lines text.now) }
    ensures { cycles.new ≡ put cycles.old 0 (file_cycles text.now) }
{
    let mut at = 0;
    let mut i = 0;
    while at < text.len() {
        let end = short_line_end(text, at);
        cycles[i] = values.value_of(&text[at..end], 10);
        at = end + 1;
        i += 1;
    }
}

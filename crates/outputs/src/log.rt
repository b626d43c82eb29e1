// The lines of a log, by their letter.
// Stays (1, 3, 4, 6, 7): the letter is the log's own byte, which `LogFiles.line_with` compares; the loop goes from line to line by `line_end`, which looks at a block of bytes at a time; the four texts are lent apart (no heap).
ghost use Rattle.std.specs.Prelude.{◌+◌, ◌≤◌, length};
ghost use Rattle.text.specs.Place.{PutsWithin};
ghost use Rattle.outputs.specs.LogFiles.{letter_t, letter_h, letter_l, letter_d, line_with, Taken};

use crate::Split;
use text::lines::{LF, line_end};
use text::place::put_bytes;

// Splits a log: puts the lines that begin with T, H, L and D, each without the letter and the blank after it, at the fronts of four texts, and
// returns how many bytes each has. (The loop goes from line to line: `line_end` looks at a block of bytes at a time, where a `split` would look at each byte.)
pub fn split_log(
    log: &[u8],
    trace: &mut [u8],
    hwregtrace: &mut [u8],
    leds: &mut [u8],
    display7seg: &mut [u8],
) -> Split
    requires { (length log.now ≤ length trace.old) × (length log.now ≤ length hwregtrace.old) × (length log.now ≤ length leds.old) × (length log.now ≤ length display7seg.old) }
    ensures { Taken letter_t log.now trace.old result.trace trace.new × Taken letter_h log.now hwregtrace.old result.hwregtrace hwregtrace.new × Taken letter_l log.now leds.old result.leds leds.new × Taken letter_d log.now display7seg.old result.display7seg display7seg.new }
{
    let mut t = 0;
    let mut h = 0;
    let mut l = 0;
    let mut d = 0;
    let mut from = 0;
    while from < log.len() {
        let end = line_end(log, from);
        t = put_taken(&log[from..end], b'T', trace, t);
        h = put_taken(&log[from..end], b'H', hwregtrace, h);
        l = put_taken(&log[from..end], b'L', leds, l);
        d = put_taken(&log[from..end], b'D', display7seg, d);
        from = end + 1;
    }
    Split {
        trace: t,
        hwregtrace: h,
        leds: l,
        display7seg: d,
    }
}

// Puts a line that begins with the letter, without the letter and the blank after it, and an LF at a place and returns the place after them; of
// another line puts nothing. (The letter is the log's own byte, which `LogFiles.line_with` compares.)
fn put_taken(line: &[u8], letter: u8, out: &mut [u8], at: usize) -> usize
    requires { at + length line.now ≤ length out.old }
    ensures { PutsWithin (length line.now) out.old at (line_with letter line.now) result out.new }
{
    match line {
        [] => at,
        [first, ..] if *first != letter => at,
        [_] => {
            out[at] = LF;
            at + 1
        }
        [_, _, rest @ ..] => {
            let end = put_bytes(out, at, rest);
            out[end] = LF;
            end + 1
        }
    }
}

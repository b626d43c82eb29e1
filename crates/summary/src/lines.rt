// The lines E and N.
// Stays (1, 2, 4, 5): the status and the refused question are printed as the documents' numbers; the text goes to a place of a lent buffer (no heap).
ghost use Rattle.std.specs.Prelude.{◌+◌, ◌≤◌, length};
ghost use Rattle.text.specs.Place.{Puts};
ghost use Rattle.summary.specs.ClosingLines.{line_e, line_n};

use crate::fields::{put_last_number, put_number};
use crate::time::milliseconds;

// Puts the line E of a status and an age at a place and returns the place after it.
pub fn put_line_e(out: &mut [u8], at: usize, status: u32, age: u64) -> usize
    requires { at + length (line_e status age) ≤ length out.old }
    ensures { Puts out.old at (line_e status age) result out.new }
{
    out[at] = b'E';
    let age_at = put_number(out, at + 1, status as u64);
    let time_at = put_number(out, age_at, age);
    put_last_number(out, time_at, milliseconds(age))
}

// Puts the line N of a refusal's number and line at a place and returns the place after it.
pub fn put_line_n(out: &mut [u8], at: usize, number: u32, line: usize) -> usize
    requires { at + length (line_n number line) ≤ length out.old }
    ensures { Puts out.old at (line_n number line) result out.new }
{
    out[at] = b'N';
    let line_at = put_number(out, at + 1, number as u64);
    put_last_number(out, line_at, line as u64)
}

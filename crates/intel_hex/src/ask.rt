// The questions asked of a record.
ghost use Rattle.std.specs.Prelude.{◌≡◌, cond, ◌+◌, ◌≤◌, eqb, Some};
ghost use Rattle.intel_hex.specs.Answers.{hex_read_outcome};
ghost use Rattle.intel_hex.specs.Steps.{byte_limit, found_outcome};

use crate::HexError;
use crate::record::{Found, Kind};

// Asks the questions of the record on a line, where a memory has `room` bytes and `free` is the address after the last byte named before.
pub fn ask(
    found: Found,
    room: usize,
    free: usize,
    is_last: bool,
    line: usize,
) -> Result<(), HexError>
    requires { found.address + found.count ≤ byte_limit }
    ensures { hex_read_outcome result ≡ found_outcome room free is_last (Some found) line }
{
    match found.kind {
        Kind::Data => {}
        Kind::End => {
            if found.count != 0 || !is_last {
                return Err(HexError::BadRecord(line));
            }
        }
        Kind::Other => return Err(HexError::BadType(line)),
    }
    if found.count != 0 && (found.address < free || room < found.address + found.count) {
        return Err(HexError::BadAddress(line));
    }
    Ok(())
}

// The address after the last byte named, once the record has been read.
pub fn free_after(found: Found, free: usize) -> usize
    requires { found.address + found.count ≤ byte_limit }
    ensures { result ≡ cond (eqb found.count 0) free (found.address + found.count) }
{
    if found.count == 0 {
        return free;
    }
    found.address + found.count
}

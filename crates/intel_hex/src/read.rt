// Intel HEX read into a memory. The records put their bytes into an array of the call's own, so that a refusal changes nothing.
// Stays (3, 5): a turn goes over a record, whose end is found as it is read; the place is no counted index.
ghost use Rattle.std.specs.Prelude.{◌≡◌, length};
ghost use Rattle.intel_hex.specs.Promises.{HexFileRead};
ghost use Rattle.intel_hex.specs.Steps.{byte_limit, RecordsRead};

use crate::HexError;
use crate::ask::{ask, free_after};
use crate::fill::fill_memory;
use crate::record::{BYTES, Kind, find_record};
use text::digits::DigitTable;

// Reads a text into a memory that is to have so many words.
pub fn read_hex(text: &[u8], size: usize, memory: &mut [u32]) -> Result<(), HexError>
    ensures { HexFileRead size text.now memory.old result memory.new }
{
    if memory.len() != size {
        return Err(HexError::WrongLength);
    }
    let values = DigitTable::new();
    let mut bytes = [0u8; BYTES];
    read_records(text, 4 * memory.len(), &mut bytes, &values)?;
    fill_memory(&bytes, memory);
    Ok(())
}

// Reads the records of a text into bytes, of which a memory has `room`.
fn read_records(
    text: &[u8],
    room: usize,
    bytes: &mut [u8; BYTES],
    values: &DigitTable,
) -> Result<(), HexError>
    requires { length bytes.old ≡ byte_limit }
    ensures { RecordsRead room text.now bytes.old result bytes.new }
{
    let mut at = 0;
    let mut i = 0;
    let mut free = 0;
    while at < text.len() {
        let Some(found) = find_record(&text[at..], bytes, values) else {
            return Err(HexError::BadRecord(i + 1));
        };
        let next = at + found.end + 1;
        ask(found, room, free, text.len() <= next, i + 1)?;
        if found.kind == Kind::End {
            return Ok(());
        }
        free = free_after(found, free);
        at = next;
        i += 1;
    }
    Err(HexError::BadType(i + 1))
}

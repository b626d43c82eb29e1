// The writers.
// Stays (2): a public call for each memory, as the C interface has them; the work is one function over the count of words.
ghost use Rattle.std.specs.Prelude.{◌≡◌, ◌%◌, ◌≤◌, eqb, length};
ghost use Rattle.files.specs.Sizes.{is_data_length, is_disk_length};
ghost use Rattle.files.specs.Promises.{TextWritten};
ghost use Rattle.intel_hex.specs.Writing.{hex_text};

use files::{DATA_WORDS, DISK_WORDS, WriteError};
use intel_hex::put_hex_text;
use text::hex_words::HexTable;

// Bytes of a text: a line of 44 bytes for four words, and one of 12 for the end.
pub const DATA_HEX: usize = 11 * DATA_WORDS + 12;

pub const DISK_HEX: usize = 11 * DISK_WORDS + 12;

// Writes the data memory, 4,096 words.
pub fn write_hex_data(memory: &[u32], text: &mut [u8]) -> Result<usize, WriteError>
    ensures { TextWritten (is_data_length (length memory.now)) (hex_text memory.now) text.old result text.new }
{
    write_hex(memory, DATA_WORDS, text)
}

// Writes the disk, 16,384 words.
pub fn write_hex_disk(disk: &[u32], text: &mut [u8]) -> Result<usize, WriteError>
    ensures { TextWritten (is_disk_length (length disk.now)) (hex_text disk.now) text.old result text.new }
{
    write_hex(disk, DISK_WORDS, text)
}

// Writes a memory that is to have so many words.
fn write_hex(memory: &[u32], words: usize, text: &mut [u8]) -> Result<usize, WriteError>
    requires fours { words % 4 ≡ 0 }
    requires most { words ≤ 16384 }
    ensures { TextWritten (eqb (length memory.now) words) (hex_text memory.now) text.old result text.new }
{
    if memory.len() != words {
        return Err(WriteError::WrongLength);
    }
    if text.len() < 11 * words + 12 {
        return Err(WriteError::NoRoom);
    }
    let table = HexTable::new();
    Ok(put_hex_text(memory, text, &table))
}

// Intel HEX, read and written.
// Stays (2): the C interface has a call for each memory.
ghost use Rattle.std.specs.Prelude.{length};
ghost use Rattle.files.specs.Sizes.{data_words, disk_words, is_data_length, is_disk_length};
ghost use Rattle.intel_hex.specs.Writing.{hex_text};
ghost use Rattle.simp.specs.Files.{ReadsHex, Writes};

use hex_files::{read_hex_data, read_hex_disk, write_hex_data, write_hex_disk};
use text::outcomes::{counted, done};

// Reads Intel HEX into a data memory.
pub fn simp_read_hex_data(text: &[u8], memory: &mut [u32], place: &mut u64) -> u32
    ensures { ReadsHex data_words text.now memory.old result memory.new place.new }
{
    let outcome = done(read_hex_data(text, memory));
    *place = outcome.place as u64;
    outcome.number
}

// Reads Intel HEX into a disk.
pub fn simp_read_hex_disk(text: &[u8], disk: &mut [u32], place: &mut u64) -> u32
    ensures { ReadsHex disk_words text.now disk.old result disk.new place.new }
{
    let outcome = done(read_hex_disk(text, disk));
    *place = outcome.place as u64;
    outcome.number
}

// Writes a data memory as Intel HEX into the front of a text.
pub fn simp_write_hex_data(memory: &[u32], text: &mut [u8], count: &mut u64) -> u32
    ensures { Writes (is_data_length (length memory.now)) (hex_text memory.now) text.old result text.new count.new }
{
    let outcome = counted(write_hex_data(memory, text));
    *count = outcome.count as u64;
    outcome.number
}

// Writes a disk as Intel HEX into the front of a text.
pub fn simp_write_hex_disk(disk: &[u32], text: &mut [u8], count: &mut u64) -> u32
    ensures { Writes (is_disk_length (length disk.now)) (hex_text disk.now) text.old result text.new count.new }
{
    let outcome = counted(write_hex_disk(disk, text));
    *count = outcome.count as u64;
    outcome.number
}

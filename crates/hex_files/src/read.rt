// The readers.
// Stays (2): a public call for each memory, as the C interface has them; the work is `read_hex`.
ghost use Rattle.files.specs.Sizes.{data_words, disk_words};
ghost use Rattle.intel_hex.specs.Promises.{HexFileRead};

use files::{DATA_WORDS, DISK_WORDS};
use intel_hex::{HexError, read_hex};

// Reads a text into the data memory, 4,096 words.
pub fn read_hex_data(text: &[u8], memory: &mut [u32]) -> Result<(), HexError>
    ensures { HexFileRead data_words text.now memory.old result memory.new }
{
    read_hex(text, DATA_WORDS, memory)
}

// Reads a text into the disk, 16,384 words.
pub fn read_hex_disk(text: &[u8], disk: &mut [u32]) -> Result<(), HexError>
    ensures { HexFileRead disk_words text.now disk.old result disk.new }
{
    read_hex(text, DISK_WORDS, disk)
}

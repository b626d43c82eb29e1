// Memories written as new HEX files, beside the old ones.
// Stays (2): two functions of two lines, which differ in writer and room; handing both in would be no plainer.
ghost use Rattle.std.specs.Prelude.{length};
ghost use Rattle.files.specs.Sizes.{is_data_length, is_disk_length};
ghost use Rattle.memories.specs.NewFiles.{NewWritten};

use console::Writing;
use hex_files::{DATA_HEX, DISK_HEX, write_hex_data, write_hex_disk};
use memories::write_new_text;

// Writes the data memory as a new HEX file, under the name that an argument gives.
pub fn write_new_hex_data(rt: HostRuntime, i: usize, memory: &[u32]) -> Option<Writing>
    ensures { NewWritten (is_data_length (length memory.now)) result }
{
    let mut text = [0u8; DATA_HEX];
    write_new_text(rt, i, write_hex_data(memory, &mut text), &text)
}

// Writes the disk in the same way.
pub fn write_new_hex_disk(rt: HostRuntime, i: usize, disk: &[u32]) -> Option<Writing>
    ensures { NewWritten (is_disk_length (length disk.now)) result }
{
    let mut text = [0u8; DISK_HEX];
    write_new_text(rt, i, write_hex_disk(disk, &mut text), &text)
}

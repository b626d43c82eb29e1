// The memory files and the irq2 file, read and written.
// Stays (2): the C interface has a call for each memory.
ghost use Rattle.std.specs.Prelude.{length};
ghost use Rattle.files.specs.Sizes.{is_image_length, is_data_length, is_frame_length, is_part_length, is_disk_part, image_digits, word_digits, frame_digits};
ghost use Rattle.files.specs.MemoryFile.{file_text, sectors_of};
ghost use Rattle.simp.specs.Files.{Reads, ReadsCycles, Writes};

use files::{
    read_data, read_disk, read_frame, read_image, read_irq2, write_data, write_disk, write_frame,
    write_image,
};
use text::outcomes::{counted, done};

// Reads an instruction file into an image.
pub fn simp_read_image(text: &[u8], image: &mut [u64], place: &mut u64) -> u32
    ensures { Reads image_digits is_image_length text.now image.old result image.new place.new }
{
    let outcome = done(read_image(text, image));
    *place = outcome.place as u64;
    outcome.number
}

// Reads a file of data into a data memory.
pub fn simp_read_data(text: &[u8], memory: &mut [u32], place: &mut u64) -> u32
    ensures { Reads word_digits is_data_length text.now memory.old result memory.new place.new }
{
    let outcome = done(read_data(text, memory));
    *place = outcome.place as u64;
    outcome.number
}

// Reads a file of disk words into a part of whole sectors.
pub fn simp_read_disk(text: &[u8], part: &mut [u32], place: &mut u64) -> u32
    ensures { Reads word_digits is_part_length text.now part.old result part.new place.new }
{
    let outcome = done(read_disk(text, part));
    *place = outcome.place as u64;
    outcome.number
}

// Reads a file of the frame into a frame.
pub fn simp_read_frame(text: &[u8], frame: &mut [u8], place: &mut u64) -> u32
    ensures { Reads frame_digits is_frame_length text.now frame.old result frame.new place.new }
{
    let outcome = done(read_frame(text, frame));
    *place = outcome.place as u64;
    outcome.number
}

// Reads an irq2 file into the front of a list of cycles.
pub fn simp_read_irq2(text: &[u8], cycles: &mut [u64], count: &mut u64, place: &mut u64) -> u32
    ensures { ReadsCycles text.now cycles.old result cycles.new count.new place.new }
{
    let outcome = counted(read_irq2(text, cycles));
    *count = outcome.count as u64;
    *place = outcome.place as u64;
    outcome.number
}

// Writes an image as an instruction file into the front of a text.
pub fn simp_write_image(image: &[u64], text: &mut [u8], count: &mut u64) -> u32
    ensures { Writes (is_image_length (length image.now)) (file_text image_digits image.now) text.old result text.new count.new }
{
    let outcome = counted(write_image(image, text));
    *count = outcome.count as u64;
    outcome.number
}

// Writes a data memory into the front of a text.
pub fn simp_write_data(memory: &[u32], text: &mut [u8], count: &mut u64) -> u32
    ensures { Writes (is_data_length (length memory.now)) (file_text word_digits memory.now) text.old result text.new count.new }
{
    let outcome = counted(write_data(memory, text));
    *count = outcome.count as u64;
    outcome.number
}

// Writes so many sectors of a disk, from sector `first` on, into the front of a text.
pub fn simp_write_disk(
    disk: &[u32],
    first: u64,
    sectors: u64,
    text: &mut [u8],
    count: &mut u64,
) -> u32
    ensures { Writes (is_disk_part (length disk.now) first sectors) (file_text word_digits (sectors_of disk.now first sectors)) text.old result text.new count.new }
{
    let outcome = counted(write_disk(disk, first as usize, sectors as usize, text));
    *count = outcome.count as u64;
    outcome.number
}

// Writes a frame into the front of a text.
pub fn simp_write_frame(frame: &[u8], text: &mut [u8], count: &mut u64) -> u32
    ensures { Writes (is_frame_length (length frame.now)) (file_text frame_digits frame.now) text.old result text.new count.new }
{
    let outcome = counted(write_frame(frame, text));
    *count = outcome.count as u64;
    outcome.number
}

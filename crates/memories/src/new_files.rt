// Memories written as new files, beside the old ones. (The four differ in the writer, the room and the length that their contracts name.)
// Stays (2, 5): the four differ in the writer, the room and the length that their contracts name; what they share is `write_new_text`.
ghost use Rattle.std.specs.Prelude.{eqb, length};
ghost use Rattle.files.specs.Sizes.{is_image_length, is_data_length, is_disk_length, is_frame_length};
ghost use Rattle.files.specs.Answers.{written_outcome};
ghost use Rattle.memories.specs.NewFiles.{NewWritten};

use crate::named::accept_at;
use console::{Name, Writing, write_new_file};
use files::{WriteError, write_data, write_disk, write_frame, write_image};
use text::outcomes::counted;

// The bytes of an instruction file, of a file of data, of the disk and of the frame.
const IMAGE_TEXT: usize = 53_248;

const DATA_TEXT: usize = 36_864;

const DISK_TEXT: usize = 147_456;

const FRAME_TEXT: usize = 196_608;

// Writes the instruction file as a new file, under the name that an argument gives.
pub fn write_new_image(rt: HostRuntime, i: usize, image: &[u64]) -> Option<Writing>
    ensures { NewWritten (is_image_length (length image.now)) result }
{
    let mut text = [0u8; IMAGE_TEXT];
    write_new_text(rt, i, write_image(image, &mut text), &text)
}

// Writes the file of data in the same way.
pub fn write_new_data(rt: HostRuntime, i: usize, memory: &[u32]) -> Option<Writing>
    ensures { NewWritten (is_data_length (length memory.now)) result }
{
    let mut text = [0u8; DATA_TEXT];
    write_new_text(rt, i, write_data(memory, &mut text), &text)
}

// Writes the file of the whole disk in the same way.
pub fn write_new_disk(rt: HostRuntime, i: usize, disk: &[u32]) -> Option<Writing>
    ensures { NewWritten (is_disk_length (length disk.now)) result }
{
    let mut text = [0u8; DISK_TEXT];
    write_new_text(rt, i, write_disk(disk, 0, 128, &mut text), &text)
}

// Writes the file of the frame in the same way.
pub fn write_new_frame(rt: HostRuntime, i: usize, frame: &[u8]) -> Option<Writing>
    ensures { NewWritten (is_frame_length (length frame.now)) result }
{
    let mut text = [0u8; FRAME_TEXT];
    write_new_text(rt, i, write_frame(frame, &mut text), &text)
}

// Writes bytes as a new file, under the name that an argument gives.
pub fn write_new_bytes(rt: HostRuntime, i: usize, bytes: &[u8]) -> Option<Writing> {
    write_new_file(rt, Name::of_argument(rt, i).bytes(), bytes)
}

// Writes a text that a writer filled; says why where it was refused.
pub fn write_new_text(
    rt: HostRuntime,
    i: usize,
    written: Result<usize, WriteError>,
    text: &[u8],
) -> Option<Writing>
    ensures { NewWritten (eqb (written_outcome written).number 0) result }
{
    accept_at(rt, i, counted(written))?;
    write_new_bytes(rt, i, text)
}

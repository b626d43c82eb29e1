// The writers of memory files.
// Stays (2, 3, 4, 5, 7): a public call for each memory, as the C interface has them; the work is one function over the cells; sectors are numbered by document 01.
ghost use Rattle.std.specs.Prelude.{◌≡◌, true, ◌+◌, ◌*◌, ◌≤◌, length};
ghost use Rattle.text.specs.Place.{put};
ghost use Rattle.files.specs.Sizes.{is_image_length, is_data_length, is_frame_length, is_disk_part, image_digits, word_digits, frame_digits};
ghost use Rattle.files.specs.MemoryFile.{file_text, sectors_of};
ghost use Rattle.files.specs.Promises.{TextWritten};

use crate::put::put_words;
use crate::sizes::{DATA_WORDS, FRAME_BYTES, IMAGE_WORDS, SECTOR_TEXT, WORD_DIGITS, is_part_of};
use crate::{Cell, WriteError};
use text::digits::PairTable;

// Writes the instruction image, 4,096 words, as 12 digits a line: the low 48 bits of each word.
pub fn write_image(image: &[u64], text: &mut [u8]) -> Result<usize, WriteError>
    ensures { TextWritten (is_image_length (length image.now)) (file_text image_digits image.now) text.old result text.new }
{
    if image.len() != IMAGE_WORDS {
        return Err(WriteError::WrongLength);
    }
    write_words(image, text)
}

// Writes the data memory, 4,096 words, as 8 digits a line.
pub fn write_data(memory: &[u32], text: &mut [u8]) -> Result<usize, WriteError>
    ensures { TextWritten (is_data_length (length memory.now)) (file_text word_digits memory.now) text.old result text.new }
{
    if memory.len() != DATA_WORDS {
        return Err(WriteError::WrongLength);
    }
    write_words(memory, text)
}

// Writes the frame, 65,536 bytes, as 2 digits a line.
pub fn write_frame(frame: &[u8], text: &mut [u8]) -> Result<usize, WriteError>
    ensures { TextWritten (is_frame_length (length frame.now)) (file_text frame_digits frame.now) text.old result text.new }
{
    if frame.len() != FRAME_BYTES {
        return Err(WriteError::WrongLength);
    }
    write_words(frame, text)
}

// Writes so many sectors of the disk, 16,384 words, from sector `first` on, as 8 digits a line.
pub fn write_disk(
    disk: &[u32],
    first: usize,
    sectors: usize,
    text: &mut [u8],
) -> Result<usize, WriteError>
    ensures { TextWritten (is_disk_part (length disk.now) first sectors) (file_text word_digits (sectors_of disk.now first sectors)) text.old result text.new }
{
    if !is_part_of(disk.len(), first, sectors) {
        return Err(WriteError::WrongLength);
    }
    if text.len() < SECTOR_TEXT * sectors {
        return Err(WriteError::NoRoom);
    }
    let pairs = PairTable::new();
    Ok(put_sectors(disk, first, sectors, text, &pairs))
}

// Puts so many sectors of the disk from sector `first` on, each as a part of the disk, and returns the place after them.
fn put_sectors(
    disk: &[u32],
    first: usize,
    sectors: usize,
    text: &mut [u8],
    pairs: &PairTable,
) -> usize
    requires words { length disk.now ≡ 16384 }
    requires within { first + sectors ≤ 128 }
    requires room { 1152 * sectors ≤ length text.old }
    ensures { (text.new ≡ put text.old 0 (file_text word_digits (sectors_of disk.now first sectors))) × (result ≡ 1152 * sectors) }
{
    let mut at = 0;
    for s in first..first + sectors {
        at = put_words(&disk[128 * s..128 * s + 128], WORD_DIGITS, text, at, pairs);
    }
    at
}

// Writes words, no more than the largest memory has, whose count has been asked.
fn write_words<C: Cell>(words: &[C], text: &mut [u8]) -> Result<usize, WriteError>
    requires { length words.now ≤ 65536 }
    ensures { TextWritten true (file_text C.DIGITS (C.numbers words.now)) text.old result text.new }
{
    if text.len() < words.len() * (C::DIGITS + 1) {
        return Err(WriteError::NoRoom);
    }
    let pairs = PairTable::new();
    Ok(put_words(words, C::DIGITS, text, 0, &pairs))
}

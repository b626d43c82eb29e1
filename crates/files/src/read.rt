// The readers of memory files. Each asks its questions first, so that a refusal changes nothing.
// Stays (2, 7): a public call for each memory, as the C interface has them; the work is one function over the cells.
ghost use Rattle.std.specs.Prelude.{true};
ghost use Rattle.files.specs.Sizes.{is_image_length, is_data_length, is_frame_length, is_part_length, image_digits, word_digits, frame_digits};
ghost use Rattle.files.specs.Promises.{MemoryRead};

use crate::check::check_words;
use crate::fill::fill_words;
use crate::sizes::{DATA_WORDS, FRAME_BYTES, IMAGE_WORDS, is_part};
use crate::{Cell, FileError};
use text::digits::DigitTable;

// Reads an instruction file: 12 digits a line, into 4,096 words, whose bits above 47 are 0 then.
pub fn read_image(text: &[u8], image: &mut [u64]) -> Result<(), FileError>
    ensures { MemoryRead image_digits is_image_length text.now image.old result image.new }
{
    if image.len() != IMAGE_WORDS {
        return Err(FileError::WrongLength);
    }
    read_words(text, image)
}

// Reads a file of data: 8 digits a line, into 4,096 words.
pub fn read_data(text: &[u8], memory: &mut [u32]) -> Result<(), FileError>
    ensures { MemoryRead word_digits is_data_length text.now memory.old result memory.new }
{
    if memory.len() != DATA_WORDS {
        return Err(FileError::WrongLength);
    }
    read_words(text, memory)
}

// Reads a file of disk words: 8 digits a line, into a part of whole sectors.
pub fn read_disk(text: &[u8], part: &mut [u32]) -> Result<(), FileError>
    ensures { MemoryRead word_digits is_part_length text.now part.old result part.new }
{
    if !is_part(part.len()) {
        return Err(FileError::WrongLength);
    }
    read_words(text, part)
}

// Reads a file of the frame: 2 digits a line, into 65,536 bytes.
pub fn read_frame(text: &[u8], frame: &mut [u8]) -> Result<(), FileError>
    ensures { MemoryRead frame_digits is_frame_length text.now frame.old result frame.new }
{
    if frame.len() != FRAME_BYTES {
        return Err(FileError::WrongLength);
    }
    read_words(text, frame)
}

// Reads a file into a memory whose length has been asked.
fn read_words<C: Cell>(text: &[u8], memory: &mut [C]) -> Result<(), FileError>
    ensures { MemoryRead C.DIGITS (λ n. true) text.now (C.numbers memory.old) result (C.numbers memory.new) }
{
    let values = DigitTable::new();
    check_words(text, C::DIGITS, memory.len(), &values)?;
    fill_words(text, memory, &values);
    Ok(())
}

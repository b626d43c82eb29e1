// The call: a text assembled into a lent image and data memory.
// Stays (2, 5, 6): the working memories are zero here and lent on, in fixed memory (no heap); a table's words are a number that the type takes.
ghost use Rattle.std.specs.Prelude.{◌≡◌, ◌&&◌, ◌*◌, ◌^◌, ◌≤◌, ◌<◌, leb, length, replicate};
ghost use Rattle.symbols.specs.Table.{entry_at};
ghost use Rattle.files.specs.Sizes.{image_words, data_words, is_image_length, is_data_length};
ghost use Rattle.labels.specs.Limits.{most_source};
ghost use Rattle.assembler.specs.Promises.{Assembling};
ghost use Rattle.assembler.specs.Passes.{Translated, PassedWith};

use crate::AssembleError;
use crate::translate::translate;
use labels::{MOST_LABELS, find_labels};
use lines::instructions::{NAME_WORDS, NameTable};
use text::digits::DigitTable;

// The bytes of the longest text.
const MOST_SOURCE: usize = 262_144;

// The words of the image, and of the data memory.
const MEMORY_WORDS: usize = 4096;

// The words of a table that has room for the labels of a good text, and one more.
const USUAL_WORDS: usize = 8192 + 4 * 1025;

// The words of a table that has room for every label of the longest text.
const LARGE_WORDS: usize = 8192 + 4 * 87_382;

// Assembles a text of up to 262,144 bytes into an instruction image and a data memory of 4,096 words each.
pub fn assemble(source: &[u8], image: &mut [u64], memory: &mut [u32]) -> Result<(), AssembleError>
    ensures { Assembling source.now image.old memory.old result image.new memory.new }
{
    if !are_right_lengths(source.len(), image.len(), memory.len()) {
        return Err(AssembleError::WrongLength);
    }
    let mut words = [0u64; MEMORY_WORDS];
    let mut stored = [0u32; MEMORY_WORDS];
    pass_twice(source, &mut words, &mut stored)?;
    image.copy_from_slice(&words);
    memory.copy_from_slice(&stored);
    Ok(())
}

// "are the lent lengths those above? 1"
fn are_right_lengths(source: usize, image: usize, memory: usize) -> bool
    ensures { result ≡ (leb source most_source && is_image_length image && is_data_length memory) }
{
    source <= MOST_SOURCE && image == MEMORY_WORDS && memory == MEMORY_WORDS
}

// Both passes over a text: what its lines tell, and what they store in words and a data memory that are zero. A text with more labels than a good text has is
// read again, with a large table.
fn pass_twice(source: &[u8], words: &mut [u64], memory: &mut [u32]) -> Result<(), AssembleError>
    requires few { length source.now ≤ most_source }
    requires words { words.old ≡ replicate image_words 0 }
    requires memory { memory.old ≡ replicate data_words 0 }
    ensures { Translated source.now result words.new memory.new }
{
    if let Some(answer) = pass_with::<USUAL_WORDS>(source, words, memory) {
        return answer;
    }
    pass_with::<LARGE_WORDS>(source, words, memory).unwrap()
}

// Both passes with a table of so many words, the second only if the table has room for all labels.
fn pass_with<const WORDS: usize>(
    source: &[u8],
    words: &mut [u64],
    memory: &mut [u32],
) -> Option<Result<(), AssembleError>>
    requires few { length source.now ≤ most_source }
    requires table { entry_at 0 ≤ WORDS }
    requires fits { WORDS * 4 < 2 ^ 63 }
    requires words { words.old ≡ replicate image_words 0 }
    requires memory { memory.old ≡ replicate data_words 0 }
    ensures { PassedWith WORDS source.now result words.new memory.new }
{
    let mut table = [0u32; WORDS];
    let mut name_words = [0u32; NAME_WORDS];
    let names = NameTable::new(&mut name_words);
    let digits = DigitTable::new();
    let mut values = [0u32; MOST_LABELS];
    let labels = find_labels(source, &mut table, &mut values, &digits)?;
    Some(translate(&labels, &names, &digits, words, memory))
}

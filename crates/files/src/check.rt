// The questions that are asked of a memory file's lines, before anything is changed.
// Stays (3): by places, since with `chunks` words were read 5% slower and a frame up to 40%.
ghost use Rattle.std.specs.Prelude.{◌≡◌, ◌+◌, ◌≤◌, length};
ghost use Rattle.text.specs.Lines.{first_line};
ghost use Rattle.files.specs.MemoryFile.{is_word, lines_outcome};
ghost use Rattle.files.specs.Answers.{file_read_outcome};

use crate::FileError;
use text::digits::DigitTable;
use text::lines::ends_line;

// Asks of each line of the text whether a word of the memory, which has `room`, is left for it, and whether it is k digits.
// By places: with `chunks` words were read 5% slower and a frame up to 40%.
pub fn check_words(text: &[u8], k: usize, room: usize, values: &DigitTable) -> Result<(), FileError>
    requires { k ≤ 12 }
    ensures { file_read_outcome result ≡ lines_outcome k room text.now }
{
    for i in 0..text.len().div_ceil(k + 1) {
        if room <= i {
            return Err(FileError::NoWord(i + 1));
        }
        if !is_word(&text[i * (k + 1)..], k, values) {
            return Err(FileError::BadDigits(i + 1));
        }
    }
    Ok(())
}

// Whether the line at the front of a text is k hexadecimal digits and nothing else.
fn is_word(text: &[u8], k: usize, values: &DigitTable) -> bool
    ensures { result ≡ is_word k (first_line text.now) }
{
    k <= text.len() && ends_line(text, k) && values.all_digits(&text[..k], 16)
}

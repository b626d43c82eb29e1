// The lister: instruction words as assembly text. What it writes and what it answers stand in specs/.
// Stays (2): the words of an image are document 01's, said where the question is asked.
#![tactic(auto)]

mod answers;
mod immediates;
mod lengths;
mod line;
mod listing;
mod pieces;
mod table;
mod used;

ghost use Rattle.lister.specs.Calls.{TextListed};

use crate::listing::{first_unknown, has_room, put_lines};
pub use used::used_words;

// The words of an image, as many as can be listed at once.
const MOST_WORDS: usize = 4096;

// Why words are not listed.
#[derive(Clone, Copy)]
pub enum ListError {
    // More words are lent than an image has.
    WrongLength,
    // This word, counted from 0, has an opcode that names no operation.
    UnknownOpcode(usize),
    // The lent slice is shorter than the text.
    NoRoom,
}

// Writes each word as a line of assembly text into the front of `text`, and returns how many bytes stand there; a refusal changes nothing.
pub fn list(words: &[u64], text: &mut [u8]) -> Result<usize, ListError>
    ensures { TextListed words.now text.old result text.new }
{
    if MOST_WORDS < words.len() {
        return Err(ListError::WrongLength);
    }
    if let Some(word) = first_unknown(words) {
        return Err(ListError::UnknownOpcode(word));
    }
    if !has_room(words, text.len()) {
        return Err(ListError::NoRoom);
    }
    Ok(put_lines(words, text))
}

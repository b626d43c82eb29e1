// The passes over the words: the first unknown opcode, the length of the text, and the text itself.
// Stays (2, 4): the text goes to a place of a lent buffer (no heap), and is measured without it where the room is asked.
ghost use Rattle.std.specs.Prelude.{◌≡◌, not, ◌≤◌, leb, length, position};
ghost use Rattle.text.specs.Place.{put};
ghost use Rattle.files.specs.Sizes.{image_words};
ghost use Rattle.isa.specs.Word.{fields_of};
ghost use Rattle.lister.specs.Listing.{listing};
ghost use Rattle.lister.specs.Calls.{last_opcode};

use crate::lengths::line_length;
use crate::line::put_line;
use crate::table::PieceTable;
use isa::word::decode;

// The opcode of halt, the last.
const LAST_OPCODE: u32 = 21;

// The bytes of the longest line, with its LF.
const MOST_LINE: usize = 46;

// Whether the opcode of a word names no operation.
fn is_unknown(word: u64) -> bool
    ensures { result ≡ not (leb (fields_of word).op last_opcode) }
{
    LAST_OPCODE < decode(word).op
}

// The place of the first word whose opcode names no operation, if there is one.
pub fn first_unknown(words: &[u64]) -> Option<usize>
    ensures { result ≡ position (λ w. not (leb (fields_of w).op last_opcode)) words.now }
{
    words.iter().position(|word| is_unknown(*word))
}

// How many bytes the text of the words has.
fn text_length(words: &[u64]) -> usize
    requires { length words.now ≤ image_words }
    ensures { result ≡ length (listing words.now) }
{
    let pieces = PieceTable::new();
    let mut total = 0;
    for word in words {
        total += line_length(*word, &pieces);
    }
    total
}

// Whether the text of the words fits so much room. Where there is room for the longest lines they are not measured.
pub fn has_room(words: &[u64], room: usize) -> bool
    requires { length words.now ≤ image_words }
    ensures { result ≡ leb (length (listing words.now)) room }
{
    MOST_LINE * words.len() <= room || text_length(words) <= room
}

// Puts the text of the words at the front of `out` and returns the place after it.
pub fn put_lines(words: &[u64], out: &mut [u8]) -> usize
    requires { length (listing words.now) ≤ length out.old }
    ensures text { out.new ≡ put out.old 0 (listing words.now) }
    ensures end { result ≡ length (listing words.now) }
{
    let pieces = PieceTable::new();
    let mut at = 0;
    for word in words {
        at = put_line(out, at, *word, &pieces);
    }
    at
}

// What a status means, in words.
// Stays (1, 2, 4, 6): the status is document 01's number, and `Statuses.status_words` gives no words of another; the words go to a place of a lent buffer (no heap).
ghost use Rattle.std.specs.Prelude.{◌≡◌, ◌++◌, ◌+◌, ◌≤◌, length};
ghost use Rattle.text.specs.Numerals.{decimal};
ghost use Rattle.text.specs.Place.{put, PutsWithin};
ghost use Rattle.outputs.specs.Statuses.{status_words};

use text::decimal::put_decimal;
use text::place::put_bytes;

// The words of the statuses.
const WORDS: [&str; 6] = [
    "running",
    "halted",
    "the opcode is above 21",
    "the data address is above 4095",
    "the I/O register is not listed",
    "diskbuffer is above 3968 at a disk command",
];

// Puts a status at a place, what stands in front of its number, the number, what stands between, and its words; returns the place after them.
pub fn put_status(front: &[u8], status: u32, between: &[u8], out: &mut [u8], at: usize) -> usize
    requires { at + length front.now + length between.now + 52 ≤ length out.old }
    ensures { (out.new ≡ put out.old at (front.now ++ decimal status ++ between.now ++ status_words status)) × (result ≡ at + length (front.now ++ decimal status ++ between.now ++ status_words status)) × (result ≤ at + length front.now + length between.now + 52) }
{
    let number_at = put_bytes(out, at, front);
    let between_at = put_decimal(out, number_at, status as u64);
    let words_at = put_bytes(out, between_at, between);
    put_status_words(out, words_at, status)
}

// Puts the words of a status at a place and returns the place after them; a number that is no status puts nothing.
fn put_status_words(out: &mut [u8], at: usize, status: u32) -> usize
    requires { at + 42 ≤ length out.old }
    ensures { PutsWithin 42 out.old at (status_words status) result out.new }
{
    put_bytes(out, at, status_words(status))
}

// The words of a status; none of a number that is no status.
fn status_words(status: u32) -> &'static [u8]
    ensures is { result.now ≡ status_words status }
    ensures most { length result.now ≤ 42 }
{
    if 5 < status {
        return b"";
    }
    WORDS[status as usize].as_bytes()
}

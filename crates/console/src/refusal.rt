// The line that is said of a refusal. Its number is the documents', as `text::Outcome` has it for C.
// Stays (1, 4, 6): the number is documents 01 and 02's, as C and the line N have it; a file's name need not be text, so the line is bytes in an array (no heap).
ghost use Rattle.std.specs.Prelude.{◌≡◌, ◌+◌, ◌≤◌, length};
ghost use Rattle.text.specs.Place.{put, PutsWithin};
ghost use Rattle.console.specs.Counts.{IsPrefixLen};
ghost use Rattle.console.specs.Refusals.{has_line, counted, place_text, refusal_line};

use crate::arguments::NAME;
use crate::output::say;
use crate::sentences::put_sentence;
use text::decimal::{digit_count, put_decimal};
use text::lines::LF;
use text::place::put_bytes;

// Room for the longest name of a file and the rest of the line.
const ROOM: usize = 4352;

// Says that a file is refused: its name, the line or the word, the number and its question in words. Of a longer name than a file can have, the
// front is said.
pub fn say_refusal(rt: HostRuntime, file: &[u8], number: u32, place: usize) {
    let mut line = [0u8; ROOM];
    let front = &file[..file.len().min(NAME)];
    let end = put_refusal(&mut line, front, number, place);
    say(rt, &line[..end]);
}

// Puts the line of a refusal at the front and returns its length.
fn put_refusal(out: &mut [u8], file: &[u8], number: u32, place: usize) -> usize
    requires { length file.now + 256 ≤ length out.old }
    ensures { (out.new ≡ put out.old 0 (refusal_line file.now number place)) × (result ≡ length (refusal_line file.now number place)) × IsPrefixLen result out.new }
{
    let colon_at = put_bytes(out, 0, file);
    let place_at = put_bytes(out, colon_at, b": ");
    let number_at = put_place(out, place_at, number, place);
    let words_at = put_counted(out, number_at, b"", number as usize);
    let end = put_sentence(out, words_at, number);
    out[end] = LF;
    end + 1
}

// Puts the place of a refusal, as `line 3: `, and returns the place after it; a refusal that has no place puts nothing.
fn put_place(out: &mut [u8], at: usize, number: u32, place: usize) -> usize
    requires { at + 32 ≤ length out.old }
    ensures { PutsWithin 32 out.old at (place_text number place) result out.new }
{
    if number == 16 {
        return put_counted(out, at, b"word ", place);
    }
    if has_line(number, place) {
        return put_counted(out, at, b"line ", place);
    }
    at
}

// Whether the place of a refusal is a line.
fn has_line(number: u32, place: usize) -> bool
    ensures { result ≡ has_line number place }
{
    matches!(number, 2..=12 | 17..=19) && 0 < place
}

// Puts what is counted and its number, and a colon and a blank after them; returns the place after these.
fn put_counted(out: &mut [u8], at: usize, kind: &[u8], n: usize) -> usize
    requires { (length kind.now ≤ 5) × (at + length kind.now + 27 ≤ length out.old) }
    ensures { (out.new ≡ put out.old at (counted kind.now n)) × (result ≡ at + length (counted kind.now n)) × (result ≤ at + length kind.now + 22) }
{
    let number_at = put_bytes(out, at, kind);
    let colon_at = put_decimal(out, number_at, n as u64);
    put_bytes(out, colon_at, b": ")
}

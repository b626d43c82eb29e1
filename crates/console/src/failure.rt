// Why a call of the system failed, on standard error.
// Stays (1, 4, 5, 6): a name need not be text, so `write!` puts the error's words alone; what has no room is left out, as `Line.appended` has it.
ghost use Rattle.std.specs.Prelude.{◌≤◌, length};
ghost use Rattle.console.specs.Counts.{IsPrefixLen};

use crate::output::{LINE, put_if_room, tell};
use std::io::{Cursor, Error, Write};

// Room for the text of an error.
const TEXT: usize = 256;

// Tells why a call failed, of what: as `prog.asm: No such file or directory`.
pub fn fail(rt: HostRuntime, what: &[u8], error: Error) {
    let mut line = [0u8; LINE];
    let colon_at = put_if_room(&mut line, 0, what);
    let text_at = put_if_room(&mut line, colon_at, b": ");
    let end_at = put_cause(&mut line, text_at, error);
    let end = put_if_room(&mut line, end_at, b"\n");
    tell(rt, &line[..end]);
}

// Puts the words of an error at a place of a line, without its number, and returns the place after them.
fn put_cause(line: &mut [u8], at: usize, error: Error) -> usize
    requires { at ≤ length line.old }
    ensures { IsPrefixLen result line.new }
{
    let mut text = [0u8; TEXT];
    let mut to = Cursor::new(&mut text[..]);
    let _ = write!(to, "{error}");
    match str::from_utf8(&text) {
        Ok(words) => put_if_room(line, at, words_of(words).as_bytes()),
        Err(_) => at,
    }
}

// The words of an error: what stands in front of its number, or of the zeros that fill the room up.
fn words_of(text: &str) -> &str {
    match text.split_once(" (os error ") {
        Some((words, _)) => words,
        None => text.trim_end_matches('\0'),
    }
}

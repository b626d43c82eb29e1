// Lines on standard output. A line is put together first, so that it is written at once. Its pieces are bytes: a file's name need not be text, so `write!` can't
// put it, and `PiecesPut` says each byte.
// Stays (1, 2, 4, 6): by `Line.appended` a line goes on without what has no room, so none is asked for; a file's name need not be text, so a line is bytes in an array (no heap).
ghost use Rattle.std.specs.Prelude.{[], ◌∷◌, ◌≤◌, length};
ghost use Rattle.text.specs.Numerals.{decimal};
ghost use Rattle.console.specs.Line.{PiecesPut};

use crate::failure::fail;
use text::decimal::{digit_count, put_decimal};
use text::place::put_bytes;

// Room for a line with three names of files.
pub const LINE: usize = 16_384;

// Writes bytes to standard output; where that fails, standard error tells.
pub fn say(rt: HostRuntime, bytes: &[u8]) {
    if let Err(error) = rt.write_all(bytes) {
        fail(rt, b"standard output", error);
    }
}

// Writes bytes to standard error, where progress is told.
pub fn tell(rt: HostRuntime, bytes: &[u8]) {
    let _ = Print::write_all(&rt.stderr(), bytes);
}

// Says words of a file, after its name.
pub fn say_of(rt: HostRuntime, file: &[u8], words: &[u8]) {
    let mut line = [0u8; LINE];
    let words_at = put_if_room(&mut line, 0, file);
    let end = put_if_room(&mut line, words_at, words);
    say(rt, &line[..end]);
}

// Puts bytes at a place of a line and returns the place after them; where there is no room for them, puts none. (No `Option`: by `Line.appended` the line goes
// on without them.)
pub fn put_if_room(line: &mut [u8], at: usize, bytes: &[u8]) -> usize
    requires { at ≤ length line.old }
    ensures { PiecesPut (bytes.now ∷ []) line.old at line.new result }
{
    if line.len() - at < bytes.len() {
        return at;
    }
    put_bytes(line, at, bytes)
}

// Puts a number in decimal; where there is no room for it, puts nothing.
pub fn put_number(line: &mut [u8], at: usize, v: usize) -> usize
    requires { at ≤ length line.old }
    ensures { PiecesPut (decimal v ∷ []) line.old at line.new result }
{
    if line.len() - at < digit_count(v as u64) {
        return at;
    }
    put_decimal(line, at, v as u64)
}

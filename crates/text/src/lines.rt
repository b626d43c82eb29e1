// The lines of a text, by the places where they begin and end.
// Stays (1, 2, 3, 4, 5): a line's end is a place, the text's end where no LF stands; blocks are passed over without a branch a byte (a line of 262,144 bytes: docs/BENCHMARKS.md).
ghost use Rattle.std.specs.Prelude.{◌≡◌, ◌+◌, ◌≤◌, ◌<◌, length, get_or, drop};
ghost use Rattle.text.specs.Lines.{LF as line_feed, first_line, has_lf, ends_line};

// The byte that ends a line.
pub const LF: u8 = b'\n';

// How many bytes are looked at one by one first: most lines are not longer.
const NEAR: usize = 64;

// How many bytes are passed over at once after them where none of them is an LF.
const BLOCK: usize = 256;

// The place where the line that begins at `from` ends: that of its LF, or the end of the text. (It lies within the text, as callers want to
// know.)
pub fn line_end(s: &[u8], from: usize) -> usize
    requires { from ≤ length s.now }
    ensures { (result ≡ from + length (first_line (drop from s.now))) × (result ≤ length s.now) }
{
    let near = near_end(s.len(), from);
    let at = first_lf(s, from, near);
    if at < near {
        return at;
    }
    first_lf(s, after_blocks(s, at), s.len())
}

// The same where lines are short: all bytes are looked at one by one.
pub fn short_line_end(s: &[u8], from: usize) -> usize
    requires { from ≤ length s.now }
    ensures { (result ≡ from + length (first_line (drop from s.now))) × (result ≤ length s.now) }
{
    first_lf(s, from, s.len())
}

// The place up to which bytes are looked at one by one, in a text of so many bytes.
fn near_end(len: usize, from: usize) -> usize
    requires { from ≤ len }
    ensures { (from ≤ result) × (result ≤ len) }
{
    if len - from < NEAR {
        return len;
    }
    from + NEAR
}

// The place of the first LF from `from` on, or `to` where none stands before it: the line that begins there ends where the one that begins at `from` does.
fn first_lf(s: &[u8], from: usize, to: usize) -> usize
    requires { (from ≤ to) × (to ≤ length s.now) }
    ensures { (result + length (first_line (drop result s.now)) ≡ from + length (first_line (drop from s.now))) × (result ≤ to) × (result < to → get_or s.now result 0 ≡ line_feed) }
{
    for at in from..to {
        if s[at] == LF {
            return at;
        }
    }
    to
}

// The place after the blocks from `from` on that have no LF: the line that begins there ends where the one that begins at `from` does.
fn after_blocks(s: &[u8], from: usize) -> usize
    requires { from ≤ length s.now }
    ensures { (result + length (first_line (drop result s.now)) ≡ from + length (first_line (drop from s.now))) × (result ≤ length s.now) }
{
    let mut at = from;
    while BLOCK <= s.len() - at {
        if has_lf(&s[at..at + BLOCK]) {
            return at;
        }
        at += BLOCK;
    }
    at
}

// Whether there is an LF among bytes. All of them are looked at, without a branch for each.
fn has_lf(part: &[u8]) -> bool
    ensures { result ≡ has_lf part.now }
{
    let mut found = false;
    for b in part {
        found = found | (*b == LF);
    }
    found
}

// Whether a line can end at this place: an LF stands there, or the text ends there or before.
pub fn ends_line(s: &[u8], at: usize) -> bool
    ensures { result ≡ ends_line s.now at }
{
    s.len() <= at || s[at] == LF
}

// The tokens of a line, by their places.
// Stays (1, 3, 4, 5, 6): tokens are places in the line, which is lent (no heap).
ghost use Rattle.std.specs.Prelude.{◌≡◌, ◌+◌, ◌≤◌, ◌<◌, [], ◌∷◌, length, get_or};
ghost use Rattle.source.specs.Tokens.{closes, follows, is_joined, tokens, texts};
ghost use Rattle.source.specs.Spans.{Begins, StartsAt, EndsAt, TokenAt, Split};

use crate::Span;
use crate::bytes::is_blank;

// A line split into its first tokens, as many as there was room for their places.
#[derive(Clone, Copy)]
pub struct Tokens<'a> {
    pub line: &'a [u8],
    pub spans: &'a [Span],
    pub count: usize,
    pub ghost split: { Split line.now spans.now count },
}

// Splits a line into its tokens: puts the place of each into `spans`, as many as it has room for.
pub fn split<'a>(line: &'a [u8], spans: &'a mut [Span]) -> Tokens<'a>
    ensures line { result.line.now ≡ line.now }
    ensures room { length result.spans.now ≡ length spans.old }
{
    let count = put_spans(line, spans);
    Tokens { line, spans, count }
}

// Puts the place of each token of a line into `spans`, as many as it has room for, and returns how many.
pub fn put_spans(line: &[u8], spans: &mut [Span]) -> usize
    ensures split { Split line.now spans.new result }
    ensures room { length spans.new ≡ length spans.old }
{
    let mut p = 0;
    for k in 0..spans.len() {
        let Some(s) = next_token(line, p) else {
            return k;
        };
        spans[k] = s;
        p = s.end;
    }
    spans.len()
}

impl<'a> Tokens<'a> {
    // A line that is not split.
    pub fn none(line: &'a [u8]) -> Tokens<'a>
        ensures { result.line.now ≡ line.now }
    {
        Tokens {
            line,
            spans: &[],
            count: 0,
        }
    }

    // The bytes of token k.
    pub fn text(&self, k: usize) -> &'a [u8]
        requires { k < self.now.count }
        ensures { result.now ≡ get_or (texts (tokens self.now.line.now)) k [] }
    {
        let s = self.spans[k];
        &self.line[s.start..s.end]
    }
}

// The first token from p on, if there is one.
pub fn next_token(line: &[u8], p: usize) -> Option<Span>
    requires { p ≤ length line.now }
    ensures { TokenAt line.now p result }
{
    let start = token_start(line, p)?;
    Some(Span {
        start,
        end: token_end(line, start),
    })
}

// Where the first token from p on begins, if there is one.
fn token_start(line: &[u8], p: usize) -> Option<usize>
    requires { p ≤ length line.now }
    ensures { StartsAt line.now p result }
{
    for i in p..line.len() {
        if line[i] == b'#' {
            return None;
        }
        if !is_blank(line[i]) {
            return Some(i);
        }
    }
    None
}

// Where the token that begins at a ends.
fn token_end(line: &[u8], a: usize) -> usize
    requires { (a < length line.now) × Begins (get_or line.now a 0) }
    ensures { EndsAt line.now a result }
{
    for i in a..line.len() - 1 {
        if !is_joined(line[i], line[i + 1]) {
            return i + 1;
        }
    }
    line.len()
}

// Whether two bytes, one after the other, are of one token.
fn is_joined(b: u8, next: u8) -> bool
    ensures { result ≡ is_joined b (next ∷ []) }
{
    !is_closing(b) && can_follow(next)
}

// Whether a byte is the last of its token.
fn is_closing(b: u8) -> bool
    ensures { result ≡ closes b }
{
    matches!(b, b',' | b':')
}

// Whether a byte can follow another in a token.
fn can_follow(b: u8) -> bool
    ensures { result ≡ follows b }
{
    !(is_blank(b) || matches!(b, b',' | b'#'))
}

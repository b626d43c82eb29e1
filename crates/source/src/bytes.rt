// The bytes of a line.
// Stays (4, 6): bytes are tested without a branch, which lines of 500 bytes need to be fast (docs/BENCHMARKS.md).
ghost use Rattle.std.specs.Prelude.{◌≡◌, ◌&&◌, leb};
ghost use Rattle.source.specs.Bytes.{is_blank, is_letter, is_letter_or_digit, is_allowed, are_right_bytes, are_all};

// The most bytes of a line.
pub const MOST_BYTES: usize = 500;

// Whether a byte is a blank: space, tab or CR. Joined by `|`, as below: with a branch for a byte, long lines took three times as long.
pub fn is_blank(b: u8) -> bool
    ensures { result ≡ is_blank b }
{
    (b == b' ') | (b == b'\t') | (b == b'\r')
}

// Whether a byte is a letter.
pub fn is_letter(b: u8) -> bool
    ensures { result ≡ is_letter b }
{
    b.is_ascii_alphabetic()
}

// Whether a byte is a letter or a digit.
pub fn is_letter_or_digit(b: u8) -> bool
    ensures { result ≡ is_letter_or_digit b }
{
    b.is_ascii_alphanumeric()
}

// Whether a byte may stand in a line.
pub fn is_allowed(b: u8) -> bool
    ensures { result ≡ is_allowed b }
{
    is_blank(b) | (33 <= b) & (b <= 126)
}

// Whether a line has right bytes, and not too many. Every byte is tested, also after one that is not allowed: so the loop has no branch for a byte.
#[tactic(auto, unfolding(crate::specs::Bytes::are_right_bytes))]
pub fn are_right_bytes(line: &[u8]) -> bool
    ensures { result ≡ are_right_bytes line.now }
{
    if MOST_BYTES < line.len() {
        return false;
    }
    let mut right = true;
    for b in line {
        right = right & is_allowed(*b);
    }
    right
}

// Whether all bytes of a part are letters or digits.
pub fn are_letters_or_digits(s: &[u8]) -> bool
    ensures { result ≡ are_all is_letter_or_digit s.now }
{
    s.iter().all(|b| is_letter_or_digit(*b))
}

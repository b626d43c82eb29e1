// The words of a memory from its bytes.
// Stays (2, 4, 5): a word is made of four bytes of an array of fixed size (no heap), which every record's bytes are put into.
ghost use Rattle.std.specs.Prelude.{◌≡◌, ◌+◌, ◌*◌, ◌≤◌, length, drop};
ghost use Rattle.intel_hex.specs.Words.{first_word, words_of};
ghost use Rattle.intel_hex.specs.Steps.{byte_limit};

use crate::record::BYTES;

// Sets every word of a memory from bytes, to 0 where they end.
pub fn fill_memory(bytes: &[u8; BYTES], memory: &mut [u32])
    requires { length bytes.now ≡ byte_limit }
    ensures { memory.new ≡ words_of (length memory.old) bytes.now }
{
    for (i, place) in memory.iter_mut().enumerate() {
        *place = word(bytes, i);
    }
}

// The word i of bytes; 0 where they have ended.
fn word(bytes: &[u8; BYTES], i: usize) -> u32
    requires { length bytes.now ≡ byte_limit }
    ensures { result ≡ first_word (drop (4 * i) bytes.now) }
{
    if i < BYTES / 4 {
        word_at(bytes, 4 * i)
    } else {
        0
    }
}

// The word whose four bytes stand at a place, the most significant first.
fn word_at(bytes: &[u8; BYTES], at: usize) -> u32
    requires { (length bytes.now ≡ byte_limit) × (at + 4 ≤ byte_limit) }
    ensures { result ≡ first_word (drop at bytes.now) }
{
    u32::from_be_bytes([bytes[at], bytes[at + 1], bytes[at + 2], bytes[at + 3]])
}

// Memories put into a text as Intel HEX.
// Stays (4, 5): the text goes to a place of a lent buffer (no heap), and the contract says which bytes.
ghost use Rattle.std.specs.Prelude.{◌≡◌, [], ◌∷◌, ◌++◌, ◌+◌, ◌*◌, ◌/◌, ◌%◌, ◌≤◌, length};
ghost use Rattle.text.specs.Lines.{LF as line_feed};
ghost use Rattle.text.specs.Place.{put, Puts};
ghost use Rattle.intel_hex.specs.Words.{memory_bytes};
ghost use Rattle.intel_hex.specs.Record.{total};
ghost use Rattle.intel_hex.specs.Writing.{byte_pairs, data_record, record_line, hex_text};

use text::hex_words::HexTable;
use text::lines::LF;
use text::place::put_bytes;

// Words and data bytes of a record, and bytes of its line with the LF.
const WORDS: usize = 4;

const DATA: u32 = 16;

const LINE: usize = 44;

// Where the digits of the data and of the checksum, and the LF, stand in the line.
const DATA_AT: usize = 9;

const CHECKSUM_AT: usize = 41;

const LF_AT: usize = LINE - 1;

// Puts the text of a memory at the front and returns the place after it.
pub fn put_hex_text(words: &[u32], out: &mut [u8], table: &HexTable) -> usize
    requires { (length words.now % 4 ≡ 0) × (4 * length words.now ≤ 65536) × (11 * length words.now + 12 ≤ length out.old) }
    ensures { Puts out.old 0 (hex_text words.now) result out.new }
{
    let mut at = 0;
    for (i, four) in words.chunks_exact(WORDS).enumerate() {
        put_record(four, (16 * i) as u16, out, at, table);
        at += LINE;
    }
    put_bytes(out, at, b":00000001FF\n")
}

// Puts the record of four words and an LF.
fn put_record(words: &[u32], address: u16, out: &mut [u8], at: usize, table: &HexTable)
    requires { (length words.now ≡ 4) × (at + 44 ≤ length out.old) }
    ensures { out.new ≡ put out.old at (record_line (data_record address (memory_bytes words.now)) ++ (line_feed ∷ [])) }
{
    let a = u32::from(address);
    out[at] = b':';
    table.put_hex_word(out, at + 1, a * 256 + DATA * 0x100_0000);
    let sum = put_digits(words, out, at + DATA_AT, table) + (DATA + a / 256 + a % 256);
    table.put_hex_byte(out, at + CHECKSUM_AT, ((256 - sum % 256) % 256) as u8);
    out[at + LF_AT] = LF;
}

// Puts the digits of at most four words from a place on, and returns the sum of their bytes.
fn put_digits(words: &[u32], out: &mut [u8], at: usize, table: &HexTable) -> u32
    requires { (length words.now ≤ 4) × (at + length words.now * 8 ≤ length out.old) }
    ensures { (out.new ≡ put out.old at (byte_pairs (memory_bytes words.now))) × (result ≡ total (memory_bytes words.now)) × (result ≤ 4096) }
{
    let mut sums = 0;
    for (i, word) in words.iter().enumerate() {
        table.put_hex_word(out, at + i * 8, *word);
        sums += half_sums(*word);
    }
    sums % 0x1_0000 + sums / 0x1_0000
}

// The sum of the low two bytes of a word, and that of the high two in the upper half: both are added up at once.
fn half_sums(w: u32) -> u32
    ensures { result ≡ w % 256 + w / 256 % 256 + (w / 0x10000 % 256 + w / 0x1000000) * 0x10000 }
{
    (w % 256 + w / 0x1_0000 % 256 * 0x1_0000) + (w / 256 % 256 + w / 0x100_0000 * 0x1_0000)
}

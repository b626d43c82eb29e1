// The lines T, H, L and D.
// Stays (1, 2, 4, 5): lines are put at a place of the lent log (no heap) by stores of eight bytes, and measured without it; the place is handed on as a value, as the
// promise `Puts` has it. The letter is the byte that the line begins with.
ghost use Rattle.std.specs.Prelude.{◌≡◌, [], ◌∷◌, ◌++◌, ℕ, ◌+◌, ◌/◌, ◌%◌, ◌^◌, ◌≤◌, ◌<◌, length};
ghost use Rattle.text.specs.Bytes.{bytes};
ghost use Rattle.text.specs.Numerals.{digits, low_bytes};
ghost use Rattle.text.specs.Place.{put, Puts};
ghost use Rattle.isa.specs.Word.{sign_extended};
ghost use Rattle.trace.specs.LogLines.{field, front_t, line_h, line_ld, access_name};
ghost use Rattle.trace.specs.ValidPrefixes.{ValidFor};

use crate::fields::{put_last_digits, put_named_digits};
use crate::prefixes::Prefix;
use isa::Access;
use isa::io::io_name_length;
use text::decimal::digit_count;
use text::hex_words::{HexTable, put_eight};
use text::place::put_bytes;

// The digits that an immediate below 2,048 gets in front, and those that another gets.
const FIVE_0: u64 = 0x30_3030_3030;

const FIVE_F: u64 = 0x46_4646_4646;

// What a 0 in byte 5 is above a blank, less a T and a blank in bytes 0 and 1.
const LETTER_AND_BLANKS: u64 = 0x1000_0000_0000 - 0x2054;

// Puts the T line of an instruction at a place and returns the place after it: its front and `text`, the text of R3 to R15. R1 and R2 are the
// word's immediates.
pub fn put_line_t(
    out: &mut [u8],
    at: usize,
    pc: u32,
    word: u64,
    text: &[u8; 118],
    table: &HexTable,
) -> usize
    requires { (at + 163 ≤ length out.old) × (length text.now ≡ 118) }
    ensures { (out.new ≡ put out.old at (front_t pc word (sign_extended (word / 2 ^ 12 % 2 ^ 12)) (sign_extended (word % 2 ^ 12)) ++ text.now)) × (result ≡ at + 163) }
{
    let low = table.hex_word((word % 0x1_0000_0000) as u32);
    put_instruction(out, at, pc, word, low, table);
    let first = immediate_digits(word / 0x1000 % 0x1000, low / 0x1_0000 % 0x100_0000);
    let second = immediate_digits(word % 0x1000, low / 0x100_0000_0000);
    put_low_registers(out, at + 18, first, second);
    put_bytes(out, at + 45, text)
}

// The first 18 bytes of a T line: its letter, PC and the word. `low` holds the word's last eight digits.
fn put_instruction(out: &mut [u8], at: usize, pc: u32, word: u64, low: u64, table: &HexTable)
    requires { (at + 18 ≤ length out.old) × (low_bytes 8 low ≡ digits 16 8 (word % 2 ^ 32)) }
    ensures { out.new ≡ put out.old at (bytes "T" ++ field (digits 16 3 pc) ++ field (digits 16 12 word)) }
{
    put_eight(out, at, front_digits(pc, word, table));
    table.put_hex_byte(out, at + 8, (word / 0x1_0000_0000 % 256) as u8);
    put_eight(out, at + 10, low);
}

// The first eight bytes of a T line in a number: the letter, PC and the opcode. PC's last digit is an entry's first; the 0 after it becomes a blank.
fn front_digits(pc: u32, word: u64, table: &HexTable) -> u64
    ensures { low_bytes 8 result ≡ bytes "T" ++ field (digits 16 3 pc) ++ field (digits 16 2 (word / 2 ^ 40 % 256)) }
{
    let a = table.pair(1, (pc / 16 % 256) as u8);
    let b = table.pair(2, (pc % 16 * 16) as u8);
    let c = table.pair(3, (word / 0x100_0000_0000 % 256) as u8);
    a + b + c - LETTER_AND_BLANKS
}

// R0, which is 0, and R1 and R2: 27 bytes. `first` and `second` hold the digits of R1 and R2.
fn put_low_registers(out: &mut [u8], at: usize, first: u64, second: u64)
    requires { at + 27 ≤ length out.old }
    ensures { out.new ≡ put out.old at (field (digits 16 8 0) ++ field (low_bytes 8 first) ++ field (low_bytes 8 second)) }
{
    put_bytes(out, at, b" 00000000 ");
    put_eight(out, at + 10, first);
    out[at + 18] = b' ';
    put_eight(out, at + 19, second);
}

// The eight digits of an immediate of 12 bits, sign-extended, in a number; `low` holds those of the 12 bits.
fn immediate_digits(immediate: u64, low: u64) -> u64
    requires { (immediate < 2 ^ 12) × ((low < 2 ^ 24) × (low_bytes 3 low ≡ digits 16 3 immediate)) }
    ensures { low_bytes 8 result ≡ digits 16 8 (sign_extended immediate) }
{
    if immediate < 0x800 {
        return FIVE_0 + low * 0x100_0000_0000;
    }
    FIVE_F + low * 0x100_0000_0000
}

// Puts an H line at a place and returns the place after it. The prefix is valid for its cycle.
pub fn put_line_h(
    out: &mut [u8],
    at: usize,
    c: u64,
    access: Access,
    n: u32,
    x: u32,
    table: &HexTable,
    prefix: &Prefix,
) -> usize
    requires { (at + length (line_h c (access_name access) n x) ≤ length out.old) × ValidFor c prefix.now }
    ensures { Puts out.old at (line_h c (access_name access) n x) result out.new }
{
    let held = table.hex_word(x);
    let access_at = prefix.put_cycle(out, at, b'H', c, table);
    match access {
        Access::Read => {
            let name_at = put_bytes(out, access_at, b" READ");
            put_named_digits(out, name_at, n, held)
        }
        Access::Write => {
            let name_at = put_bytes(out, access_at, b" WRITE");
            put_named_digits(out, name_at, n, held)
        }
    }
}

// Puts an L or D line at a place and returns the place after it. The prefix is valid for its cycle.
pub fn put_line_ld(
    out: &mut [u8],
    at: usize,
    letter: u8,
    c: u64,
    x: u32,
    table: &HexTable,
    prefix: &Prefix,
) -> usize
    requires { (at + length (line_ld (letter ∷ []) c x) ≤ length out.old) × ValidFor c prefix.now }
    ensures { Puts out.old at (line_ld (letter ∷ []) c x) result out.new }
{
    let held = table.hex_word(x);
    let value_at = prefix.put_cycle(out, at, letter, c, table);
    put_last_digits(out, value_at, held)
}

// How many bytes an H line has, whatever its value.
pub fn line_h_length(c: u64, access: Access, n: u32) -> usize
    ensures { (x : ℕ) → result ≡ length (line_h c (access_name access) n x) }
{
    digit_count(c) + access_length(access) + io_name_length(n) + 14
}

// How many bytes READ or WRITE has.
fn access_length(access: Access) -> usize
    ensures { (result ≡ length (access_name access)) × (result ≤ 5) }
{
    match access {
        Access::Read => 4,
        Access::Write => 5,
    }
}

// How many bytes an L or D line has, whatever its value.
pub fn line_ld_length(c: u64) -> usize
    ensures { (letter x : ℕ) → result ≡ length (line_ld (letter ∷ []) c x) }
{
    digit_count(c) + 12
}

// What is wrong, in words, for each of the numbers of documents 01 and 02.
// Stays (1, 2, 4, 6): the number is the documents'; `Refusals.sentence` gives no words of a number that has none.
ghost use Rattle.std.specs.Prelude.{◌≡◌, ◌+◌, ◌≤◌, length};
ghost use Rattle.text.specs.Place.{PutsWithin};
ghost use Rattle.console.specs.Refusals.{sentence, longest};

use text::place::put_bytes;

// The sentences by their numbers; 0 has none.
const SENTENCES: [&str; 21] = [
    "",
    "the length is wrong (a program has at most 262144 bytes, a saved record has 94, or 91 in edition 1)",
    "the line has more than 500 bytes, or one that is neither a blank nor a visible ASCII character",
    "the line has a wrong form (asm without arguments shows the forms of lines)",
    "the operation or a register is unknown",
    "a number is out of range (immediates -2048 to 2047, with 0x or 0b to 0xFFF: 4095 as a decimal would be -1, write 0xFFF or -1; .word addresses 0 to 4095, data -2147483648 to 4294967295)",
    "the label is defined on an earlier line too",
    "a label is used here that no line defines",
    "there is no room for it (a program has at most 4096 instructions and 1024 labels)",
    "the line is no word (12 hexadecimal digits for an instruction, 8 for data and the disk, 2 for the frame; no CR)",
    "the file has too many lines (most: 4096 words, 16384 of the disk, 65536 pixels, 16384 cycles)",
    "the line is no cycle (1 to 13 decimal digits, below 1099511627775)",
    "the cycles do not rise (each is above the one before)",
    "the saved record is not sound (it holds what no machine can hold)",
    "the saved record has another edition than its length says (94 bytes: 2; 91 bytes: 1)",
    "the text does not fit",
    "the opcode names no operation (it is at most 21)",
    "the line is no Intel HEX record (wrong form, digit or checksum), or an end record with data or text after it",
    "the record is of another type than 00 (data) and 01 (end), or the end record :00000001FF is missing",
    "the record names a byte past the memory (data 16384 bytes, disk 65536), or one not above the last named before",
    "the saved record has edition 1 and a busy disk (finish the command in the old edition, or start the run again)",
];

// Puts the words of a number at a place and returns the place after them; a number that has none puts nothing.
pub fn put_sentence(out: &mut [u8], at: usize, number: u32) -> usize
    requires { at + 192 ≤ length out.old }
    ensures { PutsWithin 192 out.old at (sentence number) result out.new }
{
    put_bytes(out, at, sentence(number))
}

// The words of a number; none of a number that has none.
fn sentence(number: u32) -> &'static [u8]
    ensures is { result.now ≡ sentence number }
    ensures most { length result.now ≤ longest }
{
    if 20 < number {
        return b"";
    }
    SENTENCES[number as usize].as_bytes()
}

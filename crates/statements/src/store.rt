// What a good line stores.
// Stays (2, 4): an instruction goes to the image, data to its address in the data memory: two memories of other widths.
ghost use Rattle.std.specs.Prelude.{◌≡◌, true, cond, ◌<◌, length, set};
ghost use Rattle.lines.specs.Line.{has_code, has_word};

use lines::Form;
use lines::forms::{has_code, has_word};

// Stores the word of an instruction, if the line has one.
pub fn store_code(words: &mut [u64], n: usize, f: Form, word: u64)
    requires { has_code f ≡ true → n < length words.old }
    ensures { words.new ≡ cond (has_code f) (set words.old n word) words.old }
{
    if has_code(f) {
        words[n] = word;
    }
}

// Stores the data of `.word` at its address, if the line is one.
pub fn store_data(memory: &mut [u32], f: Form, address: usize, value: u32)
    requires { address < length memory.old }
    ensures { memory.new ≡ cond (has_word f) (set memory.old address value) memory.old }
{
    if has_word(f) {
        memory[address] = value;
    }
}

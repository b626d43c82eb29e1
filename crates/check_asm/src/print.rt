// What is printed.
// Stays (1, 2, 3, 4, 6): names of texts are bytes, so a line is printed piece by piece; the number is the documents'; the loop goes from row to row.
ghost use Rattle.std.specs.Prelude.{◌≤◌};

use crate::memories::row_end;
use lister::used_words;
use text::Outcome;
use text::digits::PairTable;

// The largest word of 48 bits.
const MOST_WORD: u64 = 0xFFFF_FFFF_FFFF;

fn print(rt: HostRuntime, bytes: &[u8]) {
    let _ = rt.write_all(bytes);
}

// Prints that there is no such file.
pub fn print_missing(rt: HostRuntime, name: &[u8]) {
    print(rt, name);
    print(rt, b" is missing\n");
}

// Prints that a text is accepted.
pub fn print_accepted(rt: HostRuntime, name: &[u8]) {
    print(rt, name);
    print(rt, b" ok\n");
}

// Prints how many bytes a listing has.
pub fn print_count(rt: HostRuntime, name: &[u8], count: usize) {
    print(rt, name);
    print(rt, b" ok ");
    print_decimal(rt, count as u64);
    print(rt, b"\n");
}

// Prints a lent text whole.
pub fn print_text(rt: HostRuntime, text: &[u8; 80]) {
    print(rt, text);
    print(rt, b"\n");
}

// Prints a refusal, and whether the lent words were kept.
pub fn print_refused(rt: HostRuntime, name: &[u8], outcome: Outcome, is_kept: bool) {
    print_number(rt, name, outcome);
    if !is_kept {
        print(rt, b" changed");
    }
    print(rt, b"\n");
}

// Prints a refusal of the lister.
pub fn print_refused_listing(rt: HostRuntime, name: &[u8], outcome: Outcome) {
    print_number(rt, name, outcome);
    print(rt, b"\n");
}

// Prints a refusal's number and place after a name.
fn print_number(rt: HostRuntime, name: &[u8], outcome: Outcome) {
    print(rt, name);
    print(rt, b" N ");
    print_decimal(rt, u64::from(outcome.number));
    print(rt, b" ");
    print_decimal(rt, outcome.place as u64);
}

// Prints whether an image came back from its listing.
pub fn print_returned(rt: HostRuntime, is_same: bool) {
    if is_same {
        print(rt, b"listed\n");
    } else {
        print(rt, b"differs\n");
    }
}

// Prints the words of an image up to the last that is not zero in its low 48 bits.
pub fn print_image(rt: HostRuntime, image: &[u64]) {
    let n = used_words(image);
    print_words(rt, &image[..n]);
}

// Prints words, each row of equal ones on a line. (The loop goes from row to row.)
fn print_words(rt: HostRuntime, words: &[u64]) {
    let mut i = 0;
    while i < words.len() {
        let end = row_end(words, i);
        print_row(rt, words[i], end - i);
        i = end;
    }
}

// Prints a word that stands so many times in a row.
fn print_row(rt: HostRuntime, word: u64, times: usize) {
    print_word(rt, word);
    if 1 < times {
        print(rt, b" x");
        print_decimal(rt, times as u64);
    }
    print(rt, b"\n");
}

// Prints a word in 12 digits; in 16 where it has bits above 47.
fn print_word(rt: HostRuntime, word: u64) {
    if word <= MOST_WORD {
        print_hex(rt, word, 12);
    } else {
        print_hex(rt, word, 16);
    }
}

// Prints the words of a data memory that are not zero.
pub fn print_data(rt: HostRuntime, memory: &[u32]) {
    for (address, word) in memory.iter().enumerate() {
        print_data_word(rt, address, *word);
    }
}

fn print_data_word(rt: HostRuntime, address: usize, word: u32) {
    if word == 0 {
        return;
    }
    print(rt, b".word ");
    print_hex(rt, address as u64, 3);
    print(rt, b" ");
    print_hex(rt, word as u64, 8);
    print(rt, b"\n");
}

// Prints the low hexadecimal digits of a number, k of them.
fn print_hex(rt: HostRuntime, v: u64, k: usize)
    requires { k ≤ 16 }
{
    let mut digits = [0u8; 16];
    PairTable::new().put_hex(&mut digits, 0, k, v);
    print(rt, &digits[..k]);
}

// Prints a number in decimal.
fn print_decimal(rt: HostRuntime, v: u64) {
    let _ = print!(rt; "{v}");
}

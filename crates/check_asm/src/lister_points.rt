// L1 to L3: words listed into texts of up to 80 bytes.
// Stays (1, 4): what is printed goes to standard output piece by piece, as the expected output has it.
ghost use Rattle.std.specs.Prelude.{◌≤◌};

use crate::print::{print_count, print_refused_listing, print_text};
use lister::{ListError, list};
use text::outcomes::Refusal;

// `add $v0, $a0, $a1, $a2, -1, -2048`, and a halt with bits above 47.
const ADD: u64 = 0x0034_56FF_F800;

const HALT: u64 = 0xFFFF_1500_0000_07FF;

// The first opcode that names no operation.
const UNKNOWN: u64 = 0x1600_0000_0000;

pub fn try_lister(rt: HostRuntime) {
    try_two_words(rt);
    try_unknown(rt);
    try_many(rt);
}

// A line of 34 bytes and one of 41.
fn try_two_words(rt: HostRuntime) {
    let words = [ADD, HALT];
    try_list(rt, b"L1_two_words", &words, 80);
    try_list(rt, b"L2_no_words", &words[0..0], 80);
    try_list(rt, b"L3_exact_room", &words, 75);
    try_list(rt, b"L3_one_byte_short", &words, 74);
}

// The place counts in the lent part.
fn try_unknown(rt: HostRuntime) {
    let words = [ADD, HALT, UNKNOWN, UNKNOWN];
    try_list(rt, b"L2_unknown_opcode", &words, 80);
    try_list(rt, b"L2_unknown_opcode_in_part", &words[1..4], 80);
    try_list(rt, b"L3_16_before_15", &words, 0);
}

fn try_many(rt: HostRuntime) {
    let words = [UNKNOWN; 4097];
    try_list(rt, b"L3_1_before_16", &words, 80);
    try_list(rt, b"L3_4096_words", &words[1..4097], 80);
    let zeros = [0u64; 4096];
    try_list(rt, b"L3_no_room_for_4096", &zeros, 80);
}

// Lists words into the front of a text that holds dots, and prints the answer and the text.
fn try_list(rt: HostRuntime, name: &[u8], words: &[u64], room: usize)
    requires { room ≤ 80 }
{
    let mut text = [b'.'; 80];
    print_answer(rt, name, list(words, &mut text[0..room]));
    print_text(rt, &text);
}

fn print_answer(rt: HostRuntime, name: &[u8], answer: Result<usize, ListError>) {
    match answer {
        Ok(count) => print_count(rt, name, count),
        Err(error) => print_refused_listing(rt, name, error.outcome()),
    }
}

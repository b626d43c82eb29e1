// Large texts: a front, a line that is repeated, and an end.
// Stays (1, 2, 4, 6): no heap: a text is built in an array of this program's room, of which a length says how much is used.
ghost use Rattle.std.specs.Prelude.{◌≤◌, [], ◌∷◌, ◌++◌, length, replicate};
ghost use Rattle.console.specs.Line.{PiecesPut};

use crate::trial::try_text;
use console::put_if_room;

const ROOM: usize = 262_145;

pub fn try_built(rt: HostRuntime) {
    try_full_image(rt);
    try_past_full_image(rt);
    try_longest(rt);
}

// A19: 4,096 instructions, lines without one after them, and a label at the last address.
fn try_full_image(rt: HostRuntime) {
    let halt = b"halt $zero,$zero,$zero,$zero,0,0\n";
    try_repeated(rt, b"A19_4096_instructions", b"", halt, 4096, b"");
    try_repeated(
        rt,
        b"A19_empty_comment_word_after",
        b"",
        halt,
        4096,
        b"\n# a comment\n.word 7 8\n \t\n",
    );
    try_repeated(
        rt,
        b"A19_label_at_4095",
        b"",
        halt,
        4095,
        b"L: halt $zero,$zero,$zero,$zero,L,0\n",
    );
}

// A18, A19, C5: a label or an instruction after 4,096 instructions.
fn try_past_full_image(rt: HostRuntime) {
    let halt = b"halt $zero,$zero,$zero,$zero,0,0\n";
    let uses = b"halt $zero,$zero,$zero,$zero,L,0\n";
    try_repeated(rt, b"A18_used_label_at_4096", uses, halt, 4095, b"L:\n");
    try_repeated(rt, b"A19_label_at_4096", b"", halt, 4096, b"L:\n");
    try_repeated(rt, b"A19_4097_instructions", b"", halt, 4097, b"");
    try_repeated(
        rt,
        b"A19_4_before_8",
        b"",
        halt,
        4096,
        b"foo $zero,$zero,$zero,$zero,0,0\n",
    );
    try_repeated(rt, b"A19_7_before_8", b"", halt, 4096, uses);
    try_repeated(
        rt,
        b"C05_5_before_8",
        b"",
        halt,
        4096,
        b"halt $zero,$zero,$zero,$zero,4095,0\n",
    );
}

// A21: 16,384 lines of 16 bytes are 262,144 bytes.
fn try_longest(rt: HostRuntime) {
    let comment = b"#23456789abcdef\n";
    try_repeated(rt, b"A21_262144_bytes", b"", comment, 16384, b"");
    try_repeated(rt, b"A21_262145_bytes", b"", comment, 16384, b"\n");
    try_repeated(
        rt,
        b"A21_1_before_3",
        b"foo\n",
        comment,
        16383,
        b"#3456789abcde",
    );
}

// Tries a text of a front, so many times a line, and an end.
fn try_repeated(rt: HostRuntime, name: &[u8], front: &[u8], line: &[u8], times: usize, end: &[u8]) {
    let mut text = [0u8; ROOM];
    let n = build(&mut text, front, line, times, end);
    try_text(rt, name, &text[..n]);
}

// Puts the text at the front and returns its length.
fn build(text: &mut [u8], front: &[u8], line: &[u8], times: usize, end: &[u8]) -> usize
    ensures { PiecesPut (front.now ∷ replicate times line.now ++ (end.now ∷ [])) text.old 0 text.new result }
{
    let lines_at = put_if_room(text, 0, front);
    let end_at = repeat(text, lines_at, line, times);
    put_if_room(text, end_at, end)
}

// Puts a line at a place, so many times, and returns the place after them.
fn repeat(text: &mut [u8], at: usize, line: &[u8], times: usize) -> usize
    requires { at ≤ length text.old }
    ensures { PiecesPut (replicate times line.now) text.old at text.new result }
{
    let mut next = at;
    for _ in 0..times {
        next = put_if_room(text, next, line);
    }
    next
}

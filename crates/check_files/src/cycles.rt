// F7, F8: irq2 files, read into three places, which each line shows.
// Stays (2): the two trials differ in the call and in what they show of its memory.
use crate::say::{say, show};
use files::read_irq2;
use text::outcomes::counted;

fn try_text(rt: HostRuntime, point: &[u8], text: &[u8]) {
    let mut cycles = [7u64; 3];
    say(rt, point, counted(read_irq2(text, &mut cycles)));
    show(rt, &cycles);
}

pub fn accepted(rt: HostRuntime) {
    try_text(rt, b"F7 empty text", b"");
    try_text(rt, b"F7 leading zeros", b"0000000000001\n2");
    try_text(rt, b"F7 last good cycle", b"1099511627774\n");
    try_text(rt, b"F8 three cycles", b"0\n5\n6\n");
}

pub fn refused(rt: HostRuntime) {
    try_text(rt, b"F7 the limit", b"1099511627775\n");
    try_text(rt, b"F7 14 digits", b"00000000000001\n");
    try_text(rt, b"F7 no decimal", b"1\nA\n");
    try_text(rt, b"F7 13 digits", b"9999999999999\n");
    try_text(rt, b"F1 empty line", b"1\n\n");
    try_text(rt, b"F2 LF alone", b"\n");
    try_text(rt, b"F3 CR", b"1\r\n");
    try_text(rt, b"F3 sign", b"+1\n");
    try_text(rt, b"F8 no word left", b"0\n5\n6\n6\n");
    try_text(rt, b"F8 room asked before digits", b"0\n5\n6\nx\n");
    try_text(rt, b"F8 equal", b"5\n5\n");
    try_text(rt, b"F8 lower", b"5\n7\n6\n");
    try_text(rt, b"F8 digits asked before rising", b"5\n4x\n");
}

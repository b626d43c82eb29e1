// Files of one sector. Each line shows the sector's first, second and last word.
// Stays (2): the two trials differ in the call and in what they show of its memory.
use crate::say::{say, show};
use files::{read_disk, write_disk};
use text::outcomes::done;

fn try_text(rt: HostRuntime, point: &[u8], text: &[u8]) {
    let mut sector = [0xA5u32; 128];
    say(rt, point, done(read_disk(text, &mut sector)));
    show(
        rt,
        &[
            u64::from(sector[0]),
            u64::from(sector[1]),
            u64::from(sector[127]),
        ],
    );
}

// F1 to F3, F5: lines that are refused.
pub fn refused(rt: HostRuntime) {
    try_text(rt, b"F1 empty line at the end", b"00000000\n\n");
    try_text(rt, b"F1 empty line between", b"00000000\n\n00000000\n");
    try_text(rt, b"F2 LF alone", b"\n");
    try_text(rt, b"F3 CR", b"00000000\n00000001\r\n");
    try_text(rt, b"F3 blank", b"00000000 \n");
    try_text(rt, b"F3 0x", b"0x000000\n");
    try_text(rt, b"F3 sign", b"+0000000\n");
    try_text(rt, b"F3 no digit", b"0000000G\n");
    try_text(rt, b"too few digits", b"0000000\n");
    try_text(rt, b"too many digits", b"000000000\n");
    try_text(rt, b"last line too short", b"00000000\n0000000");
}

// F2, F5, F6, F9: files that are accepted.
pub fn accepted(rt: HostRuntime) {
    try_text(rt, b"F2 empty text", b"");
    try_text(rt, b"F6 LF at the end", b"00000001\n00000002\n");
    try_text(rt, b"F6 no LF at the end", b"00000003");
    try_text(rt, b"F9 either case", b"dEaDbEeF\nFaCe0123\n");
}

// F4: 128 lines, and a byte more; or a byte changed before it.
pub fn past_the_end(rt: HostRuntime) {
    try_more(rt, b"F4 an LF more", 1152, 10);
    try_more(rt, b"F4 a digit more", 1152, 48);
    try_more(rt, b"F4 an earlier line", 9, 120);
}

fn try_more(rt: HostRuntime, point: &[u8], at: usize, byte: u8) {
    let disk = [0u32; 16384];
    let mut text = [48u8; 1153];
    let _ = write_disk(&disk, 0, 1, &mut text);
    put_byte(&mut text, at, byte);
    try_text(rt, point, &text);
}

fn put_byte(text: &mut [u8], at: usize, byte: u8) {
    if at < text.len() {
        text[at] = byte;
    }
}

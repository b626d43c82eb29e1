// F10, F11, F13: parts of a disk whose words are their own places, written into 4,096 bytes. Each line shows the last digit of the first and
// of the last word of the first sector, its last LF, and the byte after the third sector.
// Stays (4, 6): each word is set to its own place, which `fill` can't.
use crate::say::{say, show};
use files::write_disk;
use text::outcomes::counted;

fn try_part(rt: HostRuntime, point: &[u8], first: usize, sectors: usize, room: usize) {
    let mut disk = [0u32; 16384];
    number(&mut disk);
    let mut text = [b'.'; 4096];
    write_part(rt, point, &disk, first, sectors, room, &mut text);
    show_bytes(rt, &text);
}

// Sets each word to its place.
fn number(disk: &mut [u32; 16384]) {
    for (i, word) in disk.iter_mut().enumerate() {
        *word = i as u32;
    }
}

fn write_part(
    rt: HostRuntime,
    point: &[u8],
    disk: &[u32],
    first: usize,
    sectors: usize,
    room: usize,
    text: &mut [u8],
) {
    if room <= text.len() {
        say(
            rt,
            point,
            counted(write_disk(disk, first, sectors, &mut text[0..room])),
        );
    }
}

fn show_bytes(rt: HostRuntime, text: &[u8; 4096]) {
    show(
        rt,
        &[
            u64::from(text[5]),
            u64::from(text[6]),
            u64::from(text[7]),
            u64::from(text[1150]),
            u64::from(text[1151]),
            u64::from(text[3456]),
        ],
    );
}

pub fn disk(rt: HostRuntime) {
    try_part(rt, b"F13 no sector", 0, 0, 4096);
    try_part(rt, b"F13 past the disk", 127, 2, 4096);
    try_part(rt, b"F13 far past the disk", 18446744073709551615, 2, 4096);
    try_part(rt, b"F11 1 before 15", 127, 2, 0);
    try_part(rt, b"F13 last sectors", 125, 3, 4096);
    try_part(rt, b"F11 no room", 0, 4, 4096);
    try_part(rt, b"F11 one byte short", 2, 1, 1151);
    try_part(rt, b"F11 exact room", 2, 1, 1152);
}

// A sector from standard input, written as the lab writes it.
// Stays (1, 4, 6): no heap: a text stands in an array, of which a length says how much is used.
use console::read_full;
use files::{read_disk, write_disk};

// Room for a sector, and more.
const ROOM: usize = 4096;

// Reads the file of a sector from standard input (up to 128 words, a line of 8 hexadecimal digits each) and prints the sector.
pub fn reprint(rt: HostRuntime) {
    let mut text = [0u8; ROOM];
    let n = read_full(&mut rt.stdin(), &mut text);
    let mut disk = [0u32; 16384];
    read_sector(rt, &text[..n], &mut disk);
}

// Reads a text into the disk's first sector, and prints that; of a text that is refused nothing.
fn read_sector(rt: HostRuntime, text: &[u8], disk: &mut [u32]) {
    if disk.len() < 128 {
        return;
    }
    if read_disk(text, &mut disk[0..128]).is_ok() {
        print_sector(rt, disk);
    }
}

// Prints the disk's first sector.
fn print_sector(rt: HostRuntime, disk: &[u32]) {
    let mut text = [0u8; ROOM];
    let n = write_disk(disk, 0, 1, &mut text).unwrap_or(0);
    if n <= text.len() {
        let _ = rt.write_all(&text[0..n]);
    }
}

// Files compared.
// Stays (6): no heap: the files stand in arrays, of which lengths say how much is used.
use console::say;
use memories::read_front_at;
use text::same::are_same;

// Room for the longest file that is compared.
const ROOM: usize = 262_144;

// Says whether the files that two arguments name can be read and hold the same bytes.
pub fn compare_files(rt: HostRuntime, i: usize, j: usize) {
    let mut first = [0u8; ROOM];
    let mut second = [0u8; ROOM];
    // A file that can't be read, as is said, counts as empty.
    let n = read_front_at(rt, i, &mut first).unwrap_or(0);
    let m = read_front_at(rt, j, &mut second).unwrap_or(0);
    if n == ROOM {
        say(rt, b"too long\n");
        return;
    }
    if are_same(&first[..n], &second[..m]) {
        say(rt, b"same\n");
    } else {
        say(rt, b"different\n");
    }
}

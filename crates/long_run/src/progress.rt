// How far a long run is.
// Stays (4, 6): a line is put into an array (no heap).
use console::{put_if_room, put_number, tell};

// The cycles between two lines, a power of 2.
const STRIDE: u64 = 4_194_304;

// Tells the age of a machine on standard error, where one of its last cycles ended a stride.
pub fn tell_progress(rt: HostRuntime, age: u64, cycles: u64) {
    if age % STRIDE < cycles {
        tell_age(rt, age);
    }
}

// Tells an age.
fn tell_age(rt: HostRuntime, age: u64) {
    let mut line = [0u8; 64];
    let words_at = put_number(&mut line, 0, age as usize);
    let end = put_if_room(&mut line, words_at, b" cycles\n");
    tell(rt, &line[..end]);
}

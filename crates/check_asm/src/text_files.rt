// Texts in files.
// Stays (2, 6): no heap: a file stands in an array of this program's room, of which a length says how much is used.
use crate::print::print_missing;
use crate::trial::try_text;
use console::{Name, open_read, read_full};

// The longest source, and one byte more: what a longer file has after them changes nothing.
const FRONT: usize = 262_145;

// Tries the file that an argument names.
pub fn try_argument(rt: HostRuntime, i: usize) {
    try_file(rt, Name::of_argument(rt, i).bytes());
}

// Tries a file.
fn try_file(rt: HostRuntime, name: &[u8]) {
    let Ok(mut file) = open_read(rt, name) else {
        print_missing(rt, name);
        return;
    };
    let mut text = [0u8; FRONT];
    let n = read_full(&mut file, &mut text);
    try_text(rt, name, &text[..n]);
}

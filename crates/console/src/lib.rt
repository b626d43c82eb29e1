// What programs at a command line share: files read whole, files written beside the old ones and put in their places, arguments and the names of files in
// them, and lines on standard output, among them one for each refusal of documents 01 and 02. A program calls `open_missing_standard_streams` first, so
// that no line lands in a file.
// Stays (1): `is_new` is no sign of `file`: every Writing has a file, and is new or not.
#![tactic(auto)]

mod arguments;
mod failure;
mod more;
mod old;
mod open;
mod output;
mod path;
mod read;
mod refusal;
mod sentences;
mod standard;
mod write;

pub use arguments::{NAME, Name, are_names, argument, argument_count};
pub use failure::fail;
pub use more::begin_more;
pub use open::open_read;
pub use output::{LINE, put_if_room, put_number, say, say_of, tell};
pub use path::is_missing;
pub use read::{read_file, read_full};
pub use refusal::say_refusal;
pub use standard::open_missing_standard_streams;
use std::fs::File;
pub use write::{begin_file, commit_file, drop_file, end_file, write_more, write_new_file};

// A file that is being written. Where there may be one, `None` is a file that can't be written, as was said.
#[derive(Drop)]
pub struct Writing {
    // The file, which is open from its beginning until it is in its place or dropped.
    pub file: File,
    // Whether it is a new file beside the old one, and not the old one itself.
    pub is_new: bool,
}

// Why a file isn't read whole.
#[derive(Clone, Copy)]
pub enum NotRead {
    // The file is longer than the buffer, which holds its first bytes.
    TooLong,
    // The file can't be opened or read, and it was said why.
    Failed,
}

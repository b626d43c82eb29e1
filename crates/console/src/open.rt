// Files opened by their paths. A path is bytes; the system's library takes those that are UTF-8 text, and another names no file. (Each way to open has its own
// options; one function that takes them would be no plainer.)
// Stays (2): each way to open has its own options, and its name says which; one function that takes them would be no plainer.
ghost use Rattle.std.specs.Prelude.{◌≡◌, MatchResult};
ghost use Rattle.std.specs.Str.{IsUtf8};

use std::fs::{File, OpenOptions};
use std::io;

// What the system says of bytes that are no text.
const EILSEQ: i32 = 84;

// The path as text, where it is text.
pub fn path_text(path: &[u8]) -> io::Result<&str>
    ensures { MatchResult result (λ text. text.now ≡ path.now) (λ _. ¬ (IsUtf8 path.now)) }
{
    str::from_utf8(path).map_err(|_| io::Error::from_raw_os_error(EILSEQ))
}

// Opens a file for reading.
pub fn open_read(rt: HostRuntime, path: &[u8]) -> io::Result<File> {
    File::open(&rt, path_text(path)?)
}

// Opens what stands at a path for more at its end.
pub fn open_append(rt: HostRuntime, path: &[u8]) -> io::Result<File> {
    OpenOptions::new().append(true).open(&rt, path_text(path)?)
}

// Opens what stands at a path for writing, and empties it where it is a file; makes a file where there is none.
pub fn open_overwrite(rt: HostRuntime, path: &[u8]) -> io::Result<File> {
    OpenOptions::new()
        .write(true)
        .create(true)
        .truncate(true)
        .open(&rt, path_text(path)?)
}

// Makes a file, which was not there before.
pub fn create(rt: HostRuntime, path: &[u8]) -> io::Result<File> {
    OpenOptions::new()
        .write(true)
        .create_new(true)
        .open(&rt, path_text(path)?)
}

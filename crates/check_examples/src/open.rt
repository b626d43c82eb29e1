// The files of a folder.
// Stays (1, 2, 4): a path that has no room is the empty one, which names no file; a path need not be text, so its bytes are put into an array.
ghost use Rattle.std.specs.Prelude.{◌≡◌, ◌≤◌, List, ℕ, length, take};
ghost use Rattle.console.specs.Counts.{IsPrefixLen};

use console::{NAME, is_missing};
use std::marker::Model;
use text::place::put_bytes;

// The path of a file in a folder. A file that is missing counts as empty: the path is that of an empty one.
#[derive(Drop)]
pub struct FilePath {
    room: [u8; NAME],
    len: usize,
}

impl Model for FilePath {
    ghost Value = { List ℕ };

    ghost view = { λ path. take path.len path.room };

    ghost invariant = { λ path. path.len ≤ 4096 };
}

impl FilePath {
    // The path of a file in a folder.
    pub fn of(rt: HostRuntime, folder: &[u8], file: &[u8]) -> FilePath {
        let mut room = [0u8; NAME];
        let len = file_path(rt, folder, file, &mut room);
        FilePath { room, len }
    }

    // Its bytes.
    pub fn bytes(&self) -> &[u8]
        ensures { result.now ≡ self.now }
    {
        &self.room[..self.len]
    }
}

// Puts the path of a file in a folder at the front and returns its length. A file that is missing counts as empty: the path is that of an empty one.
fn file_path(rt: HostRuntime, folder: &[u8], file: &[u8], path: &mut [u8]) -> usize
    requires { 9 ≤ length path.old }
    ensures { IsPrefixLen result path.new }
{
    let n = put_path(folder, file, path);
    if is_missing(rt, &path[..n]) {
        return put_bytes(path, 0, b"/dev/null");
    }
    n
}

// Puts the path of a file in a folder at the front and returns its length; 0 for a path that is too long: the empty path, which names no file.
fn put_path(folder: &[u8], file: &[u8], path: &mut [u8]) -> usize
    ensures { IsPrefixLen result path.new }
{
    if path.len() <= folder.len() {
        return 0;
    }
    if path.len() - folder.len() <= file.len() {
        return 0;
    }
    let at = put_bytes(path, 0, folder);
    path[at] = b'/';
    put_bytes(path, at + 1, file)
}

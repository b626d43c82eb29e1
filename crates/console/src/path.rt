// Paths.
// Stays (1, 2, 4): a link and what it leads to are two calls of the system; by `Paths.new_path` the path that has no room is empty, and names no file; a path need not be text.
ghost use Rattle.std.specs.Prelude.{◌≡◌, true, ◌<◌, length};
ghost use Rattle.text.specs.Place.{put};
ghost use Rattle.console.specs.Counts.{IsPrefixLen};
ghost use Rattle.console.specs.Paths.{new_path};

use crate::open::path_text;
use std::fs::Metadata;
use std::io::ErrorKind;
use std::{fs, io};
use text::place::put_bytes;

// The bytes of the longest path, and one more.
pub const PATH: usize = 4096;

// Whether a path names a link, and not what the link leads to. One that is too long for a path names none.
pub fn is_link(rt: HostRuntime, path: &[u8]) -> bool
    ensures { result ≡ true → length path.now < 4096 }
{
    path.len() < PATH && link_metadata(rt, path).is_ok_and(|metadata| metadata.is_symlink())
}

// What the system says of a path itself, where it is a link.
fn link_metadata(rt: HostRuntime, path: &[u8]) -> io::Result<Metadata> {
    fs::symlink_metadata(&rt, path_text(path)?)
}

// Whether there is nothing at a path. It is not opened by this. Of one that is too long for a path the answer is no. (Of a link it asks what the link leads to,
// where `is_link` asks the link: two calls of the system, so two functions.)
pub fn is_missing(rt: HostRuntime, path: &[u8]) -> bool
    ensures { result ≡ true → length path.now < 4096 }
{
    path.len() < PATH && metadata(rt, path).is_err_and(|error| error.kind() == ErrorKind::NotFound)
}

// What the system says of what a path leads to.
fn metadata(rt: HostRuntime, path: &[u8]) -> io::Result<Metadata> {
    fs::metadata(&rt, path_text(path)?)
}

// Puts the path of the new file beside the old one at the front and returns its length; 0 where it is too long for a path. (No `Option`: `Paths.new_path` is the
// empty path then, which names no file, so that no caller has to ask.)
pub fn put_new_path(path: &[u8], out: &mut [u8]) -> usize
    ensures { (out.new ≡ put out.old 0 (new_path (length out.old) path.now)) × (result ≡ length (new_path (length out.old) path.now)) × IsPrefixLen result out.new }
{
    if out.len() < 4 {
        return 0;
    }
    if out.len() - 4 < path.len() {
        return 0;
    }
    let at = put_bytes(out, 0, path);
    put_bytes(out, at, b".new")
}

// Files written. A new file is written beside the old one and takes its place when all of it is there, so nobody sees a part of it.
// Stays (1, 2, 6): callers join the answers of several files, each of which is said; the paths' lengths are what `put_new_path` answers (no heap); writing and flushing are two calls of the system.
ghost use Rattle.std.specs.Prelude.{◌≡◌, false, IfOk};
ghost use Rattle.std.specs.Result.{result_ok};
ghost use Rattle.console.specs.Writings.{no_file, is_no_file, through, BegunNew, Ended, Committed};

use crate::Writing;
use crate::failure::fail;
use crate::old::{Old, old_file};
use crate::open::{create, open_overwrite, path_text};
use crate::output::say_of;
use crate::path::{PATH, put_new_path};
use std::fs::File;
use std::io::{Error, ErrorKind, Write};
use std::{fs, io};

// What the system says of a descriptor that is not open.
const EBADF: i32 = 9;

// Writes all of a new file, which `commit_file` puts into the place of the old one, or `drop_file` removes. Where it can't be written, the old one stays, standard error
// tells why and standard output that it is not written.
pub fn write_new_file(rt: HostRuntime, path: &[u8], bytes: &[u8]) -> Option<Writing> {
    let w = begin_file(rt, path)?;
    match write_bytes(&w.file, bytes) {
        Ok(()) => end_file(rt, path, Some(w)),
        Err(error) => {
            let failed = not_written(rt, path, path, error);
            drop_file(rt, path, Some(w));
            failed
        }
    }
}

// Writes bytes to the end of a file that is begun. One that can't be written is no open file.
pub fn write_more(w: &Option<Writing>, bytes: &[u8]) -> io::Result<()>
    ensures { IfOk result (λ _. is_no_file w.now ≡ false) }
{
    match w {
        Some(w) => write_bytes(&w.file, bytes),
        None => Err(Error::from_raw_os_error(EBADF)),
    }
}

// Writes bytes to an open file.
pub fn write_bytes(file: &File, bytes: &[u8]) -> io::Result<()> {
    let mut to = file;
    to.write_all(bytes)
}

// Begins a file, which is open then; or says that it is not written.
pub fn begin_file(rt: HostRuntime, path: &[u8]) -> Option<Writing> {
    match old_file(rt, path) {
        Ok(Old::File) => begin_new(rt, path),
        Ok(Old::Other) => begin_through(rt, path, open_overwrite(rt, path)),
        Err(error) => not_written(rt, path, path, error),
    }
}

// Goes on with what stands at a path, which stays there: a link, a device or a pipe.
#[tactic(auto, unfolding(crate::specs::Writings::through))]
pub fn begin_through(rt: HostRuntime, path: &[u8], opened: io::Result<File>) -> Option<Writing>
    ensures { result ≡ through (result_ok opened) }
{
    match opened {
        Ok(file) => Some(Writing {
            file,
            is_new: false,
        }),
        Err(error) => not_written(rt, path, path, error),
    }
}

// Begins a new file beside the old one. One that a stopped program left there is removed first.
pub fn begin_new(rt: HostRuntime, path: &[u8]) -> Option<Writing>
    ensures { BegunNew result }
{
    let mut room = [0u8; PATH];
    let n = put_new_path(path, &mut room);
    match create_anew(rt, &room[..n]) {
        Ok(file) => Some(Writing { file, is_new: true }),
        Err(error) => not_written(rt, &room[..n], path, error),
    }
}

// Makes a file, in place of one that is there.
fn create_anew(rt: HostRuntime, path: &[u8]) -> io::Result<File> {
    match create(rt, path) {
        Ok(file) => Ok(file),
        Err(error) if error.kind() == ErrorKind::AlreadyExists => {
            let _ = remove(rt, path);
            create(rt, path)
        }
        Err(error) => Err(error),
    }
}

// Removes a file.
fn remove(rt: HostRuntime, path: &[u8]) -> io::Result<()> {
    fs::remove_file(&rt, path_text(path)?)
}

// Brings a file to the disk. Where that fails, removes it if it is new, and says that it is not written.
pub fn end_file(rt: HostRuntime, path: &[u8], w: Option<Writing>) -> Option<Writing>
    ensures { Ended w result }
{
    let w = w?;
    match flush(&w.file) {
        Ok(()) => Some(w),
        Err(error) => {
            let failed = not_written(rt, path, path, error);
            drop_file(rt, path, Some(w));
            failed
        }
    }
}

// Brings an open file to the disk. What a link leads to, a device or a pipe may have none.
fn flush(file: &File) -> io::Result<()> {
    match file.sync_all() {
        Ok(()) => Ok(()),
        Err(error) if !is_without_disk(error.kind()) => Err(error),
        Err(_) => Ok(()),
    }
}

// Whether the system refuses to bring a file to the disk because of what it is, as a device or a pipe.
fn is_without_disk(kind: ErrorKind) -> bool {
    matches!(
        kind,
        ErrorKind::InvalidInput | ErrorKind::Unsupported | ErrorKind::ReadOnlyFilesystem
    )
}

// Closes a file and puts a new one into the place of the old one; answers whether the file is there then. (A bool: callers join the answers of several files.)
pub fn commit_file(rt: HostRuntime, path: &[u8], w: Option<Writing>) -> bool
    ensures { Committed w result }
{
    let Some(w) = w else {
        return false;
    };
    let is_new = w.is_new;
    drop(w);
    if is_new {
        return replace_old(rt, path);
    }
    true
}

// Puts a new file into the place of the old one, and answers whether it is there then.
fn replace_old(rt: HostRuntime, path: &[u8]) -> bool {
    let mut room = [0u8; PATH];
    let n = put_new_path(path, &mut room);
    match rename(rt, &room[..n], path) {
        Ok(()) => true,
        Err(error) => {
            not_written(rt, path, path, error);
            let _ = remove(rt, &room[..n]);
            false
        }
    }
}

// Gives a file another name.
fn rename(rt: HostRuntime, from: &[u8], to: &[u8]) -> io::Result<()> {
    fs::rename(&rt, path_text(from)?, path_text(to)?)
}

// Closes a file, whole or not, and removes it if it is new; the old one stays.
pub fn drop_file(rt: HostRuntime, path: &[u8], w: Option<Writing>) {
    let Some(w) = w else {
        return;
    };
    let is_new = w.is_new;
    drop(w);
    if !is_new {
        return;
    }
    let mut room = [0u8; PATH];
    let n = put_new_path(path, &mut room);
    let _ = remove(rt, &room[..n]);
}

// Says why a call failed, of what, and that a file is not written.
pub fn not_written(rt: HostRuntime, what: &[u8], path: &[u8], error: Error) -> Option<Writing>
    ensures { result ≡ no_file }
{
    fail(rt, what, error);
    say_of(rt, path, b": can't be written\n");
    None
}

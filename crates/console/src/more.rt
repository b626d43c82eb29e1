// A file that goes on where the old one ends.
// Stays (2, 6): `begin_more` has two steps that `begin_file` has not; handing them in would be no plainer. A part's length is what `read` answers.
use crate::Writing;
use crate::old::{Old, old_file};
use crate::open::{open_append, open_read};
use crate::write::{begin_new, begin_through, drop_file, not_written, write_bytes};
use std::fs::File;
use std::io;
use std::io::{ErrorKind, Read};

// The most reads of a file that is copied.
const MOST_READS: u64 = 0xFFFF_FFFF_FFFF_FFFF;

// The bytes of a file that are copied at once.
const PART: usize = 65_536;

// Begins a file that has what the old one has, where there is one, and is open to have more; or says that it is not written. (As `begin_file` with other steps;
// handing these in would be no plainer.)
pub fn begin_more(rt: HostRuntime, path: &[u8]) -> Option<Writing> {
    match old_file(rt, path) {
        Ok(Old::File) => begin_copy(rt, path),
        Ok(Old::Other) => begin_through(rt, path, open_append(rt, path)),
        Err(error) => not_written(rt, path, path, error),
    }
}

// Begins a new file that has what the old one has.
fn begin_copy(rt: HostRuntime, path: &[u8]) -> Option<Writing> {
    let w = begin_new(rt, path)?;
    match copy_old(rt, path, &w.file) {
        Ok(()) => Some(w),
        Err(error) => {
            let failed = not_written(rt, path, path, error);
            drop_file(rt, path, Some(w));
            failed
        }
    }
}

// Copies a file to an open one; of a missing file that is nothing.
fn copy_old(rt: HostRuntime, path: &[u8], to: &File) -> io::Result<()> {
    match open_read(rt, path) {
        Ok(from) => copy_open(&from, to),
        Err(error) if error.kind() == ErrorKind::NotFound => Ok(()),
        Err(error) => Err(error),
    }
}

// Copies the rest of one open file to another, until it ends or something fails.
fn copy_open(from: &File, to: &File) -> io::Result<()> {
    for _ in 0..MOST_READS {
        if copy_some(from, to)? == 0 {
            return Ok(());
        }
    }
    Err(io::Error::from(ErrorKind::FileTooLarge))
}

// Copies up to 64 KiB and answers how many bytes.
fn copy_some(from: &File, to: &File) -> io::Result<usize> {
    let mut part = [0u8; PART];
    let mut source = from;
    let n = source.read(&mut part)?;
    write_bytes(to, &part[..n])?;
    Ok(n)
}

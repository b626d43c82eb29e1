// What stands at a path where a file is to be written.
use crate::open::open_append;
use crate::path::is_link;
use std::io;
use std::io::ErrorKind;

// What stands at a path that can be written.
#[derive(Clone, Copy)]
pub enum Old {
    // Nothing, or a file that a new one may take the place of.
    File,
    // A link, a device or a pipe, which is not to be replaced.
    Other,
}

// Looks at what stands at a path, or says why it can't be written. Only files, and not devices or pipes, can be brought to the disk.
pub fn old_file(rt: HostRuntime, path: &[u8]) -> io::Result<Old> {
    if is_link(rt, path) {
        return Ok(Old::Other);
    }
    match open_append(rt, path) {
        Ok(file) if file.sync_all().is_ok() => Ok(Old::File),
        Ok(_) => Ok(Old::Other),
        Err(error) if error.kind() == ErrorKind::NotFound => Ok(Old::File),
        Err(error) => Err(error),
    }
}

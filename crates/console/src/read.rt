// A file read whole.
// Stays (1, 2, 3): `read_full` reads standard input, of which document 01 takes what came; a read says itself how far the loop goes.
ghost use Rattle.std.specs.Prelude.{◌≤◌, length, IfOk, IfSome};
ghost use Rattle.console.specs.Counts.{IsPrefixLen};
ghost use Rattle.console.specs.Reading.{GotIn, EndOf};

use crate::NotRead;
use crate::failure::fail;
use crate::open::open_read;
use crate::output::say_of;
use std::io;
use std::io::{Error, Read};

// Reads a file into the front of a buffer and returns how many bytes it has. Where the file can't be opened or read, standard error tells why and standard
// output that it is not read.
pub fn read_file(rt: HostRuntime, path: &[u8], buffer: &mut [u8]) -> Result<usize, NotRead>
    ensures { GotIn result buffer.new }
{
    match read_path(rt, path, buffer) {
        Ok(Some(n)) => Ok(n),
        Ok(None) => Err(NotRead::TooLong),
        Err(error) => {
            say_not_read(rt, path, error);
            Err(NotRead::Failed)
        }
    }
}

// Opens a file and reads it.
fn read_path(rt: HostRuntime, path: &[u8], buffer: &mut [u8]) -> io::Result<Option<usize>>
    ensures { IfOk result (λ count. IfSome count (λ n. IsPrefixLen n buffer.new)) }
{
    let mut file = open_read(rt, path)?;
    read_open(&mut file, buffer)
}

// Says why a call failed, and that a file is not read.
fn say_not_read(rt: HostRuntime, path: &[u8], error: Error) {
    fail(rt, path, error);
    say_of(rt, path, b": can't be read\n");
}

// Reads until the file ends, and returns how many bytes it has; none of one that is longer than the buffer.
fn read_open<R: Read>(from: &mut R, buffer: &mut [u8]) -> io::Result<Option<usize>>
    ensures { IfOk result (λ count. IfSome count (λ n. IsPrefixLen n buffer.new)) }
{
    let (n, stopped) = read_some(from, buffer);
    stopped?;
    if n < buffer.len() {
        return Ok(Some(n));
    }
    end_of(from, n)
}

// What a full buffer of n bytes tells: n where the file ends here, else none.
fn end_of<R: Read>(from: &mut R, n: usize) -> io::Result<Option<usize>>
    ensures { IfOk result (λ count. EndOf n count) }
{
    let mut one = [0u8; 1];
    if from.read(&mut one)? == 0 {
        return Ok(Some(n));
    }
    Ok(None)
}

// Reads until the buffer is full, the input ends or a read fails, and returns how many bytes stand at the front then.
pub fn read_full<R: Read>(from: &mut R, buffer: &mut [u8]) -> usize
    ensures { IsPrefixLen result buffer.new }
{
    let (n, _) = read_some(from, buffer);
    n
}

// The same, and why a read failed, if one did. (The loop has no step of one: each read says how far it went.)
fn read_some<R: Read>(from: &mut R, buffer: &mut [u8]) -> (usize, io::Result<()>)
    ensures { IsPrefixLen result.0 buffer.new }
{
    let mut n = 0;
    while n < buffer.len() {
        match from.read(&mut buffer[n..]) {
            Ok(0) => break,
            Ok(count) => n += count,
            Err(error) => return (n, Err(error)),
        }
    }
    (n, Ok(()))
}

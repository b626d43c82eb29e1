// The front of a file, as much of it as a buffer holds.
// Stays (2, 4): one is of a path and one of an argument; a file that is too long has a front, so a reader's error is no error here.
ghost use Rattle.memories.specs.Front.{CountIn};

use console::{Name, NotRead, read_file};

// The bytes that decide how a memory file or an irq2 file of any length is read: of the longest, an irq2 file, 16,384 lines of 13 digits, and one
// byte more.
pub const FRONT: usize = 229_377;

// Reads a file into the front of a buffer, as much as the buffer holds, and returns how many bytes; none where it can't be read, as is said.
pub fn read_front(rt: HostRuntime, path: &[u8], buffer: &mut [u8]) -> Option<usize>
    ensures { CountIn result buffer.new }
{
    match read_file(rt, path, buffer) {
        Ok(n) => Some(n),
        Err(NotRead::TooLong) => Some(buffer.len()),
        Err(NotRead::Failed) => None,
    }
}

// Reads the file that an argument names in the same way.
pub fn read_front_at(rt: HostRuntime, i: usize, buffer: &mut [u8]) -> Option<usize>
    ensures { CountIn result buffer.new }
{
    read_front(rt, Name::of_argument(rt, i).bytes(), buffer)
}

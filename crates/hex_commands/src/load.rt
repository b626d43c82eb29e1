// HEX files that arguments name, read into memories.
// Stays (2, 6): `HexFront` speaks of a buffer and how much of it a file fills; the buffer is an array of this size (no heap).
ghost use Rattle.std.specs.Prelude.{◌≤◌, ◌<◌, length, is_some};
ghost use Rattle.hex_commands.specs.Loading.{most_bytes, HexFront, Loaded};

use intel_hex::read_hex;
use memories::{accept_at, read_front_at, say_at};
use text::outcomes::done;

// The most bytes of a HEX file that is read. A whole disk with a record for each byte, each line ended by CR and LF, has 983,053.
const MOST: usize = 1_048_576;

// The bytes that decide whether a file has more: those, and one more.
const FRONT: usize = 1_048_577;

// Reads the HEX file that an argument names into a memory, if it is accepted; where not, says why and changes nothing.
pub fn load_hex_at(rt: HostRuntime, i: usize, memory: &mut [u32]) -> Option<()>
    ensures { Loaded (is_some result) memory.old memory.new }
{
    let mut text = room();
    let n = read_front_at(rt, i, &mut text)?;
    fill_memory(rt, i, &text, n, memory)
}

// Room for a file's front.
fn room() -> [u8; FRONT]
    ensures { most_bytes < length result }
{
    [0u8; FRONT]
}

// Fills a memory from a text of any length, of which the buffer holds the front in its first n bytes, if the text is accepted; says why where not.
fn fill_memory(rt: HostRuntime, i: usize, buffer: &[u8], n: usize, memory: &mut [u32]) -> Option<()>
    requires { (most_bytes < length buffer.now) × (n ≤ length buffer.now) }
    ensures { HexFront buffer.now n (is_some result) memory.old memory.new }
{
    if MOST < n {
        say_at(
            rt,
            i,
            b": the file has more than 1048576 bytes (983053 are enough for the whole disk with a record for each byte)\n",
        );
        return None;
    }
    let words = memory.len();
    accept_at(rt, i, done(read_hex(&buffer[..n], words, memory)))?;
    Some(())
}

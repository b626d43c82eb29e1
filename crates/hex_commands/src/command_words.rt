// The words of the command.
// Stays (4, 7): the definition `conversion_of` asks word by word; `TryFrom` would say the same in more lines, and a word is no number to match on.
ghost use Rattle.std.specs.Prelude.{◌≡◌, List, ℕ, ◌+◌, ◌^◌, ◌<◌};
ghost use Rattle.hex_commands.specs.Words.{for_memory, conversion_of};

use crate::Conversion;
use console::Name;
use text::same::are_same;

// The conversion that an argument and the next name, if they name one: that of some two words, which can't be named here.
pub fn conversion_at(rt: HostRuntime, i: usize) -> Option<Conversion>
    requires { i + 1 < 2 ^ 64 }
    ensures { (way : List ℕ) × (memory : List ℕ) × (result ≡ conversion_of way memory) }
{
    conversion_of(
        Name::of_argument(rt, i).bytes(),
        Name::of_argument(rt, i + 1).bytes(),
    )
}

// The conversion that two words name: `read` or `write`, and `data` or `disk`.
fn conversion_of(way: &[u8], memory: &[u8]) -> Option<Conversion>
    ensures { result ≡ conversion_of way.now memory.now }
{
    if are_same(way, b"read") {
        return for_memory(memory, Conversion::HexToData, Conversion::HexToDisk);
    }
    if are_same(way, b"write") {
        return for_memory(memory, Conversion::DataToHex, Conversion::DiskToHex);
    }
    None
}

// The conversion for the memory that a word names, of one for data and one for the disk.
fn for_memory(memory: &[u8], data: Conversion, disk: Conversion) -> Option<Conversion>
    ensures { result ≡ for_memory memory.now «data» disk }
{
    if are_same(memory, b"data") {
        return Some(data);
    }
    if are_same(memory, b"disk") {
        return Some(disk);
    }
    None
}

// The memories and the irq2 list of a folder. A file that can't be read, as is said, counts as empty.
// Stays (1, 2, 7): the line N has the first refusal's number, so outcomes are handed on; one function over the reader was tried in `memories`, and here saves no line.
ghost use Rattle.files.specs.Sizes.{is_image_length, is_data_length, is_part_length, image_digits, word_digits};
ghost use Rattle.files.specs.Loaded.{AreCycles};
ghost use Rattle.files.specs.Loaded.{FileLoaded, CyclesLoaded};
ghost use Rattle.check_examples.specs.Memories.{MemoriesLoaded};

use crate::open::FilePath;
use files::{read_data, read_disk, read_image, read_irq2};
use text::Outcome;
use text::outcomes::{counted, done};

// Reads the instruction file, the file of data and the file of the disk, up to the first that is refused.
pub fn load_memories(
    rt: HostRuntime,
    folder: &[u8],
    image: &mut [u64; 4096],
    memory: &mut [u32; 4096],
    disk: &mut [u32; 16384],
) -> Outcome
    ensures { MemoriesLoaded result (record { image = image.old; memory = memory.old; disk = disk.old }) (record { image = image.new; memory = memory.new; disk = disk.new }) }
{
    let outcome = load_image(rt, folder, image);
    if outcome.number != 0 {
        return outcome;
    }
    let next = load_data(rt, folder, memory);
    if next.number != 0 {
        return next;
    }
    load_disk(rt, folder, disk)
}

// Reads the instruction file.
fn load_image(rt: HostRuntime, folder: &[u8], image: &mut [u64; 4096]) -> Outcome
    ensures { FileLoaded image_digits is_image_length result image.old image.new }
{
    let path = FilePath::of(rt, folder, b"imemin.txt");
    if let Some(outcome) = memories::load_image(rt, path.bytes(), image) {
        return outcome;
    }
    done(read_image(b"", image))
}

// Reads the file of data.
fn load_data(rt: HostRuntime, folder: &[u8], memory: &mut [u32; 4096]) -> Outcome
    ensures { FileLoaded word_digits is_data_length result memory.old memory.new }
{
    let path = FilePath::of(rt, folder, b"dmemin.txt");
    if let Some(outcome) = memories::load_data(rt, path.bytes(), memory) {
        return outcome;
    }
    done(read_data(b"", memory))
}

// Reads the file of the whole disk.
fn load_disk(rt: HostRuntime, folder: &[u8], disk: &mut [u32; 16384]) -> Outcome
    ensures { FileLoaded word_digits is_part_length result disk.old disk.new }
{
    let path = FilePath::of(rt, folder, b"diskin.txt");
    if let Some(outcome) = memories::load_disk(rt, path.bytes(), disk) {
        return outcome;
    }
    done(read_disk(b"", disk))
}

// Reads the irq2 file, of up to 4,096 cycles. They stand at the front then, and rise.
pub fn load_irq2(rt: HostRuntime, folder: &[u8], cycles: &mut [u64; 4096]) -> Outcome
    ensures { AreCycles result cycles.new × CyclesLoaded result cycles.old cycles.new }
{
    let path = FilePath::of(rt, folder, b"irq2in.txt");
    if let Some(outcome) = memories::load_irq2(rt, path.bytes(), cycles) {
        return outcome;
    }
    counted(read_irq2(b"", cycles))
}

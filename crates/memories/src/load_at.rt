// Memory files that arguments name.
// Stays (2): a public call for each memory; the readers differ, and the digits and the length that their contracts name.
ghost use Rattle.std.specs.Prelude.{ℕ, Bool};
ghost use Rattle.files.specs.Sizes.{is_image_length, is_data_length, is_frame_length, is_part_length, image_digits, word_digits, frame_digits};
ghost use Rattle.memories.specs.Loading.{Loaded, Loads};

use crate::load::{load_data, load_disk, load_frame, load_image};
use crate::named::accept;
use console::Name;
use files::Cell;
use text::Outcome;

// Reads the instruction file that an argument names, if it is accepted; where not, says why and changes nothing.
pub fn load_image_at(rt: HostRuntime, i: usize, image: &mut [u64]) -> Option<()>
    ensures { Loaded image_digits is_image_length result image.old image.new }
{
    load_at(rt, i, image, |path, words| load_image(rt, path, words))
}

// Reads the file of data in the same way.
pub fn load_data_at(rt: HostRuntime, i: usize, memory: &mut [u32]) -> Option<()>
    ensures { Loaded word_digits is_data_length result memory.old memory.new }
{
    load_at(rt, i, memory, |path, words| load_data(rt, path, words))
}

// Reads the file of the whole disk in the same way.
pub fn load_disk_at(rt: HostRuntime, i: usize, disk: &mut [u32]) -> Option<()>
    ensures { Loaded word_digits is_part_length result disk.old disk.new }
{
    load_at(rt, i, disk, |path, words| load_disk(rt, path, words))
}

// Reads the file of the frame in the same way.
pub fn load_frame_at(rt: HostRuntime, i: usize, frame: &mut [u8]) -> Option<()>
    ensures { Loaded frame_digits is_frame_length result frame.old frame.new }
{
    load_at(rt, i, frame, |path, words| load_frame(rt, path, words))
}

// Loads a memory from the file that an argument names; says why where its text is refused. (A loader takes the file's path.)
fn load_at<C: Cell, L>(rt: HostRuntime, i: usize, memory: &mut [C], load: L) -> Option<()>
where
    L: FnOnce(&[u8], &mut [C]) -> Option<Outcome>,
    requires { L.IsAlwaysCallable load }
    ensures { (is_right : ℕ → Bool) → Loads C.DIGITS is_right C.numbers L.FnOnce load
        → Loaded C.DIGITS is_right result (C.numbers memory.old) (C.numbers memory.new) }
{
    let name = Name::of_argument(rt, i);
    let outcome = load(name.bytes(), memory)?;
    accept(rt, name.bytes(), outcome)?;
    Some(())
}

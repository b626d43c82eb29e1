// Memory files, by their paths. Of each at least so many bytes are read as decide how a file of any length is read: those of all the lines that it may
// have, and one more. (A reader is handed on by a closure: a function of another crate can't be handed on by its name.)
// Stays (2, 5, 6): a public call for each memory; the readers differ, and the digits and the length that their contracts name. `FrontRead` speaks of a buffer and how much of it a file fills.
ghost use Rattle.std.specs.Prelude.{ℕ, ◌≤◌, ◌<◌, Bool, length};
ghost use Rattle.files.specs.Sizes.{is_image_length, is_data_length, is_frame_length, is_part_length, image_digits, word_digits, frame_digits};
ghost use Rattle.files.specs.Front.{FrontRead};
ghost use Rattle.memories.specs.Loading.{most_text, LoadedFile, LoadedFront, Reads};

use crate::front::{FRONT, read_front};
use files::{Cell, FileError, read_data, read_disk, read_frame, read_image};
use text::Outcome;
use text::outcomes::done;

// Reads an instruction file into the image, and returns the outcome; none where the file can't be read, as is said.
#[tactic(auto, using(crate::proofs::LoadLaws::loaded_file, crate::proofs::LoadLaws::few_image))]
pub fn load_image(rt: HostRuntime, path: &[u8], image: &mut [u64]) -> Option<Outcome>
    ensures { LoadedFile image_digits is_image_length result image.old image.new }
{
    load(rt, path, image, |text, words| read_image(text, words))
}

// Reads a file of data in the same way.
#[tactic(auto, using(crate::proofs::LoadLaws::loaded_file, crate::proofs::LoadLaws::few_data))]
pub fn load_data(rt: HostRuntime, path: &[u8], memory: &mut [u32]) -> Option<Outcome>
    ensures { LoadedFile word_digits is_data_length result memory.old memory.new }
{
    load(rt, path, memory, |text, words| read_data(text, words))
}

// Reads a file of the whole disk in the same way.
#[tactic(auto, using(crate::proofs::LoadLaws::loaded_file, crate::proofs::LoadLaws::few_part))]
pub fn load_disk(rt: HostRuntime, path: &[u8], disk: &mut [u32]) -> Option<Outcome>
    ensures { LoadedFile word_digits is_part_length result disk.old disk.new }
{
    load(rt, path, disk, |text, words| read_disk(text, words))
}

// Reads a file of the frame in the same way.
#[tactic(auto, using(crate::proofs::LoadLaws::loaded_file, crate::proofs::LoadLaws::few_frame))]
pub fn load_frame(rt: HostRuntime, path: &[u8], frame: &mut [u8]) -> Option<Outcome>
    ensures { LoadedFile frame_digits is_frame_length result frame.old frame.new }
{
    load(rt, path, frame, |text, words| read_frame(text, words))
}

// Reads a file of the memory that a reader reads, in the same way. (Not inlined, so that the text has room on the stack only while it is read.)
#[inline(never)]
pub fn load<C: Cell, R>(rt: HostRuntime, path: &[u8], memory: &mut [C], read: R) -> Option<Outcome>
where
    R: FnOnce(&[u8], &mut [C]) -> Result<(), FileError>,
    requires { R.IsAlwaysCallable read }
    ensures { (is_right : ℕ → Bool) → Reads C.DIGITS is_right C.numbers R.FnOnce read
        → LoadedFront C.DIGITS is_right result (C.numbers memory.old) (C.numbers memory.new) }
{
    let mut text = [0u8; FRONT];
    let n = read_front(rt, path, &mut text)?;
    Some(fill(&text, n, memory, read))
}

// Fills a memory from a text of any length, of which the buffer holds the front in its first n bytes.
fn fill<C: Cell, R>(buffer: &[u8], n: usize, memory: &mut [C], read: R) -> Outcome
where
    R: FnOnce(&[u8], &mut [C]) -> Result<(), FileError>,
    requires calls { R.IsAlwaysCallable read }
    requires long { most_text < length buffer.now }
    requires within { n ≤ length buffer.now }
    ensures { (is_right : ℕ → Bool) → Reads C.DIGITS is_right C.numbers R.FnOnce read
        → FrontRead C.DIGITS is_right buffer.now n result (C.numbers memory.old) (C.numbers memory.new) }
{
    done(read(&buffer[..n], memory))
}

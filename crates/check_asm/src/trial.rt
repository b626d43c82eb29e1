// One text assembled, and what is printed of it.
// Stays (1): the line N has the refusal's number.
ghost use Rattle.std.specs.Prelude.{◌≡◌};
ghost use Rattle.check_asm.specs.Trials.{is_kept};

use crate::listing::print_listed;
use crate::memories::are_all;
use crate::print::{print_accepted, print_data, print_image, print_refused};
use assembler::assemble;
use text::outcomes::{Refusal, done};

// What each word of the image and of the data memory holds before.
const IMAGE_PATTERN: u64 = 0xA5A5_A5A5_A5A5_A5A5;

const DATA_PATTERN: u32 = 0xA5A5_A5A5;

// Assembles a text and prints its name and what the assembler answers and leaves.
pub fn try_text(rt: HostRuntime, name: &[u8], text: &[u8]) {
    let mut image = [IMAGE_PATTERN; 4096];
    let mut memory = [DATA_PATTERN; 4096];
    if let Err(error) = assemble(text, &mut image, &mut memory) {
        print_refused(rt, name, error.outcome(), is_kept(&image, &memory));
        return;
    }
    print_accepted(rt, name);
    print_image(rt, &image);
    print_data(rt, &memory);
    print_listed(rt, &image);
}

// Question 1 of the lent memories: an image of 4,095 words, and a data memory of 4,097.
pub fn try_lengths(rt: HostRuntime) {
    let mut image = [IMAGE_PATTERN; 4096];
    let mut memory = [DATA_PATTERN; 4096];
    let mut short_image = [IMAGE_PATTERN; 4095];
    let mut long_memory = [DATA_PATTERN; 4097];
    let first = done(assemble(b"", &mut short_image, &mut memory));
    print_refused(
        rt,
        b"lengths_short_image",
        first,
        is_kept(&short_image, &memory),
    );
    let second = done(assemble(b"", &mut image, &mut long_memory));
    print_refused(
        rt,
        b"lengths_long_memory",
        second,
        is_kept(&image, &long_memory),
    );
}

// Whether every word still holds the pattern.
fn is_kept(image: &[u64], memory: &[u32]) -> bool
    ensures { result ≡ is_kept image.now memory.now }
{
    are_all(image, IMAGE_PATTERN) && are_all(memory, DATA_PATTERN)
}

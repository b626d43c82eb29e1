// An image listed, and the listing assembled again.
// Stays (1, 2, 6): a refused listing has no bytes, by `Trials.ListedInto`, so it gives 0; no heap: the listing stands in an array, of which a length says how much is used.
ghost use Rattle.std.specs.Prelude.{◌≡◌};
ghost use Rattle.check_asm.specs.Trials.{is_image_of, ListedInto};

use crate::memories::{are_all, are_same};
use crate::print::print_returned;
use assembler::assemble;
use lister::{list, used_words};
use text::outcomes::counted;

// Room for a listing of 4,096 words: a line of one has at most 46 bytes.
const ROOM: usize = 188_416;

// Prints whether an image comes back from the listing of its words up to the last that is not zero in its low 48 bits.
pub fn print_listed(rt: HostRuntime, image: &[u64]) {
    let mut text = [0u8; ROOM];
    let n = used_words(image);
    let count = list_words(&image[..n], &mut text);
    print_returned(rt, is_image_of(&text[..count], image));
}

// Lists words and returns how many bytes of text there are; 0 where they are refused.
fn list_words(words: &[u64], text: &mut [u8]) -> usize
    ensures { ListedInto words.now text.old result text.new }
{
    counted(list(words, text)).count
}

// Whether a text is assembled into this image and a data memory of zeros.
fn is_image_of(text: &[u8], image: &[u64]) -> bool
    ensures { result ≡ is_image_of text.now image.now }
{
    let mut again = [1u64; 4096];
    let mut memory = [1u32; 4096];
    assemble(text, &mut again, &mut memory).is_ok()
        && are_all(&memory, 0)
        && are_same(&again, image)
}

// The command `list`: an instruction file as assembly text.
// Stays (2, 4, 6): no heap, and a name need not be text, so a line is put into an array; ROOM is what the longest listing has.
ghost use Rattle.std.specs.Prelude.{◌≡◌, length};

use crate::assembling::put_argument;
use console::{LINE, put_if_room, say, tell};
use lister::{list, used_words};
use memories::{accept_at, load_image_at};
use text::outcomes::counted;

// Room for a listing of 4,096 words: a line of one has at most 46 bytes.
const ROOM: usize = 188_416;

// Prints the words of the instruction file that an argument names, up to the last that is not zero in its low 48 bits, as assembly text.
pub fn list_file(rt: HostRuntime, i: usize) {
    let mut image = [0u64; 4096];
    if load_image_at(rt, i, &mut image).is_some() {
        list_image(rt, i, &image);
    }
}

// Prints the listing of an image. Where every word is zero, that is empty, and a note on standard error says so: standard output has the listing alone.
fn list_image(rt: HostRuntime, i: usize, image: &[u64]) {
    let n = used_words(image);
    if n == 0 {
        tell_empty(rt, i);
        return;
    }
    list_words(rt, i, &image[..n]);
}

// Tells on standard error that there is nothing to list in the instruction file that an argument names.
fn tell_empty(rt: HostRuntime, i: usize) {
    let mut line = [0u8; LINE];
    let words_at = put_argument(rt, &mut line, 0, i);
    let end = put_if_room(&mut line, words_at, b": every word is zero\n");
    tell(rt, &line[..end]);
}

// Room for a listing.
fn room() -> [u8; ROOM]
    ensures { 188416 ≡ length result }
{
    [0u8; ROOM]
}

// Prints the listing of words, or why they are refused.
fn list_words(rt: HostRuntime, i: usize, words: &[u64]) {
    let mut text = room();
    let outcome = counted(list(words, &mut text));
    if let Some(count) = accept_at(rt, i, outcome) {
        say(rt, &text[..count]);
    }
}

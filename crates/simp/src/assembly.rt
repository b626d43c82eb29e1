// Assembling and listing.
ghost use Rattle.simp.specs.Assembly.{Assembles, Lists};

use assembler::assemble;
use lister::list;
use text::outcomes::{counted, done};

// Assembles a text into an image and a data memory.
pub fn simp_assemble(source: &[u8], image: &mut [u64], memory: &mut [u32], place: &mut u64) -> u32
    ensures { Assembles source.now image.old memory.old result image.new memory.new place.new }
{
    let outcome = done(assemble(source, image, memory));
    *place = outcome.place as u64;
    outcome.number
}

// Lists words into the front of a text.
pub fn simp_list(words: &[u64], text: &mut [u8], count: &mut u64, place: &mut u64) -> u32
    ensures { Lists words.now text.old result text.new count.new place.new }
{
    let outcome = counted(list(words, text));
    *count = outcome.count as u64;
    *place = outcome.place as u64;
    outcome.number
}

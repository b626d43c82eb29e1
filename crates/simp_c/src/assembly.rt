// Assembling and listing.
// Stays (2): the C interface, as exports of the calls of simp.
ghost use Rattle.simp.specs.Assembly.{Assembles, Lists};

// Assembles a text into an image and a data memory.
#[unsafe(no_mangle)]
pub extern "C" fn simp_assemble(
    source: &[u8],
    image: &mut [u64],
    memory: &mut [u32],
    place: &mut u64,
) -> u32
    ensures { Assembles source.now image.old memory.old result image.new memory.new place.new }
{
    simp::simp_assemble(source, image, memory, place)
}

// Lists words into the front of a text.
#[unsafe(no_mangle)]
pub extern "C" fn simp_list(words: &[u64], text: &mut [u8], count: &mut u64, place: &mut u64) -> u32
    ensures { Lists words.now text.old result text.new count.new place.new }
{
    simp::simp_list(words, text, count, place)
}

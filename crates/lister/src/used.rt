// The words of a program.
ghost use Rattle.lister.specs.Used.{Used};

// One more than the largest word of 48 bits.
const WORD_END: u64 = 0x1_0000_0000_0000;

// How many words there are up to the last that is not zero in its low 48 bits.
pub fn used_words(words: &[u64]) -> usize
    ensures { Used words.now result }
{
    words
        .iter()
        .rposition(|word| *word % WORD_END != 0)
        .map_or(0, |last| last + 1)
}

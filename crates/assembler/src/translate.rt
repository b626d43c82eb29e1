// The second pass: the questions of each line, and what it stores.
// Stays (3): a turn goes over a line, whose end is found by looking at blocks of bytes; the place is no counted index.
ghost use Rattle.std.specs.Prelude.{◌≡◌, ◌≤◌, length, replicate};
ghost use Rattle.files.specs.Sizes.{image_words, data_words};
ghost use Rattle.labels.specs.Limits.{most_source};
ghost use Rattle.assembler.specs.Passes.{Translated};

use crate::AssembleError;
use labels::Labels;
use lines::forms::{PLACES, has_code, has_label, line_form};
use lines::instructions::NameTable;
use source::NOWHERE;
use statements::ask::ask;
use statements::read::read_statement;
use statements::store::{store_code, store_data};
use text::digits::DigitTable;
use text::lines::line_end;

// Asks each line of a text in turn, and stores what it says in words and a data memory that are zero, up to the first line that is refused. Before the line
// at p stand i lines with n instructions and m labels.
pub fn translate(
    labels: &Labels,
    names: &NameTable,
    digits: &DigitTable,
    words: &mut [u64],
    memory: &mut [u32],
) -> Result<(), AssembleError>
    requires few { length labels.now.names.source.now ≤ most_source }
    requires words { words.old ≡ replicate image_words 0 }
    requires memory { memory.old ≡ replicate data_words 0 }
    ensures { Translated labels.now.names.source.now result words.new memory.new }
{
    let source = labels.names.source;
    let mut spans = [NOWHERE; PLACES];
    let mut p = 0;
    let mut i = 0;
    let mut n = 0;
    let mut m = 0;
    while p < source.len() {
        let e = line_end(source, p);
        let line = line_form(&source[p..e], &mut spans, digits);
        let s = read_statement(&line, names, labels, digits);
        i += 1;
        if let Err(error) = ask(&line, s, labels, n, m) {
            return Err(AssembleError::at_line(error, i));
        }
        store_code(words, n, line.form, s.word);
        store_data(memory, line.form, s.address, s.value);
        n += usize::from(has_code(line.form));
        m += usize::from(has_label(line.form));
        p = e + 1;
    }
    Ok(())
}

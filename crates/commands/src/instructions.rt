// Instructions of a program.
// Stays (3, 4, 6): the loop goes from line to line by `line_end`, which looks at a block of bytes at a time; places of tokens are lent (no heap).
ghost use Rattle.std.specs.Prelude.{cond, ◌≡◌};
ghost use Rattle.text.specs.Lines.{lines};
ghost use Rattle.lines.specs.Line.{has_code};
ghost use Rattle.labels.specs.Text.{code_count};

use lines::Form;
use lines::forms::{PLACES, has_code, line_form};
use source::NOWHERE;
use text::digits::DigitTable;
use text::lines::line_end;

// How many instructions a program has: as many as it has lines with one. (The loop goes from line to line, whose ends `line_end` finds.)
pub fn count_instructions(text: &[u8]) -> usize
    ensures { result ≡ code_count (lines text.now) }
{
    let digits = DigitTable::new();
    let mut spans = [NOWHERE; PLACES];
    let mut p = 0;
    let mut n = 0;
    while p < text.len() {
        let e = line_end(text, p);
        let line = line_form(&text[p..e], &mut spans, &digits);
        n += codes(line.form);
        p = e + 1;
    }
    n
}

// How many instructions a line of a form has.
fn codes(f: Form) -> usize
    ensures { result ≡ cond (has_code f) 1 0 }
{
    usize::from(has_code(f))
}

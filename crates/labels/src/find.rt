// The labels of a text, and their values.
// Stays (2, 3, 5): a turn goes over a line, whose end is found by looking at blocks of bytes; the place is no counted index; the longest text is document 01's.
ghost use Rattle.std.specs.Prelude.{◌≡◌, true, cond, ◌+◌, ◌-◌, ◌^◌, ◌≤◌, ◌<◌, ltb, length, take, drop, set};
ghost use Rattle.lines.specs.Line.{has_label};
ghost use Rattle.lines.specs.First.{FirstFormed, tells_label, tells_code};
ghost use Rattle.symbols.specs.Table.{entry_at};
ghost use Rattle.symbols.specs.Sound.{Empty};
ghost use Rattle.labels.specs.Limits.{most_source, most_labels};
ghost use Rattle.labels.specs.Tables.{LabelNoted};
ghost use Rattle.labels.specs.Found.{LabelsFound};

use crate::{Labels, MOST_LABELS};
use lines::forms::{PLACES, first_form, has_code, has_label};
use lines::{First, Line};
use source::NOWHERE;
use symbols::Table;
use text::digits::DigitTable;
use text::lines::line_end;

// Where a line ends is found by `line_end`, in blocks, so both passes go from line to line by a `while`.
// The labels of a text, in words that are zero, and the values of the first 1,024; none where the table has no room for all.
pub fn find_labels<'a>(
    source: &'a [u8],
    words: &'a mut [u32],
    values: &'a mut [u32; MOST_LABELS],
    digits: &DigitTable,
) -> Option<Labels<'a>>
    requires few { length source.now ≤ most_source }
    requires empty { Empty words.old }
    ensures { LabelsFound source.now (length words.old) result }
{
    let mut names = Table::empty(source, words);
    let mut spans = [NOWHERE; PLACES];
    let mut p = 0;
    let mut n = 0;
    while p < source.len() {
        if !names.has_room() {
            return None;
        }
        let e = line_end(source, p);
        let first = first_form(&source[p..e], &mut spans, digits);
        n = note_line(&mut names, values, p, e, &first, n);
        p = e + 1;
    }
    Some(Labels { names, values })
}

// Adds the label of the line from p to e, if it defines one, and stores its value; n instructions stand before it. How many instructions there are then.
fn note_line(
    names: &mut Table,
    values: &mut [u32; MOST_LABELS],
    p: usize,
    e: usize,
    first: &First,
    n: usize,
) -> usize
    requires order { p ≤ e }
    requires within { e ≤ length names.old.source.now }
    requires length { length names.old.source.now < 2 ^ 32 }
    requires first { FirstFormed (take (e - p) (drop p names.old.source.now)) first.now }
    requires room { entry_at (names.old.count + 1) ≤ length names.old.words.now }
    requires few { n < 2 ^ 32 }
    requires small { names.old.count + 1 < 2 ^ 32 }
    ensures source { names.new.source.now ≡ names.old.source.now }
    ensures label { LabelNoted names.old.source.now p e (tells_label first.now) names.old.words.now values.old n names.old.count names.new.count names.new.words.now values.new }
    ensures code { result ≡ cond (tells_code first.now) (n + 1) n }
{
    match first {
        First::Whole(line) => {
            note_label(names, values, p, e, line, n);
            if has_code(line.form) { n + 1 } else { n }
        }
        First::Instruction => n + 1,
        First::Neither => n,
    }
}

// The same for a line that was read whole.
fn note_label(
    names: &mut Table,
    values: &mut [u32; MOST_LABELS],
    p: usize,
    e: usize,
    line: &Line,
    n: usize,
)
    requires order { p ≤ e }
    requires within { e ≤ length names.old.source.now }
    requires length { length names.old.source.now < 2 ^ 32 }
    requires line { line.now.tokens.line.now ≡ take (e - p) (drop p names.old.source.now) }
    requires room { entry_at (names.old.count + 1) ≤ length names.old.words.now }
    requires few { n < 2 ^ 32 }
    requires small { names.old.count + 1 < 2 ^ 32 }
    ensures source { names.new.source.now ≡ names.old.source.now }
    ensures label { LabelNoted names.old.source.now p e (has_label line.now.form) names.old.words.now values.old n names.old.count names.new.count names.new.words.now values.new }
{
    if !has_label(line.form) {
        return;
    }
    let s = line.tokens.spans[0];
    note_value(values, n, names.count);
    names.add(p + s.start, p + s.end - 1);
}

// Stores the value of label m, if it is one of the first 1,024.
fn note_value(values: &mut [u32; MOST_LABELS], n: usize, m: usize)
    requires { n < 2 ^ 32 }
    ensures { values.new ≡ cond (ltb m most_labels) (set values.old m n) values.old }
{
    if m < MOST_LABELS {
        values[m] = n as u32;
    }
}

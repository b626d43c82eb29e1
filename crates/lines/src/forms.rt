// The forms of lines.
// Stays (1, 2): the definitions `is_right`, `has_label`, `has_code` and `has_word` are of a form, the wrong one too, and theorems of labels and statements speak of them.
ghost use Rattle.std.specs.Prelude.{◌≡◌, true, cond, ◌≤◌, length};
ghost use Rattle.source.specs.Spans.{Split};
ghost use Rattle.source.specs.Shapes.{parsed};
ghost use Rattle.lines.specs.Line.{directive as directive_of, shapes, form_of, form_at, is_right, has_label, has_code, has_word};
ghost use Rattle.lines.specs.Parts.{part_count, most_places};
ghost use Rattle.lines.specs.First.{FirstFormed};

use crate::{First, Form, Line};
use source::Span;
use source::bytes::{MOST_BYTES, are_right_bytes};
use source::tokens::{Tokens, next_token, put_spans};
use text::digits::DigitTable;

// Places for as many tokens as a line can have, and one more.
pub const PLACES: usize = 14;

// A line with its form; the places of its tokens are put into `spans`. (Inlined: a line that is handed back is copied.)
#[inline(always)]
pub fn line_form<'a>(line: &'a [u8], spans: &'a mut [Span; PLACES], values: &DigitTable) -> Line<'a>
    ensures { result.tokens.line.now ≡ line.now }
{
    let (count, form) = split_form(line, spans, values);
    if is_right(form) {
        return Line {
            tokens: Tokens { line, spans, count },
            form,
        };
    }
    Line {
        tokens: Tokens::none(line),
        form,
    }
}

// The form of a line, and where that is right how many tokens it has, whose places are put into `spans`.
fn split_form(line: &[u8], spans: &mut [Span; PLACES], values: &DigitTable) -> (usize, Form)
    ensures form { result.1 ≡ form_of line.now }
    ensures split { is_right result.1 ≡ true → Split line.now spans.new result.0 }
    ensures parts { part_count result.1 ≤ result.0 }
{
    if !are_right_bytes(line) {
        return (0, Form::Wrong);
    }
    let count = put_spans(line, spans);
    let tokens = Tokens { line, spans, count };
    (count, shape_form(&tokens, values))
}

// What the length and the first token tell of a line. Where the first token ends in a colon, the whole line is read.
pub fn first_form<'a>(
    line: &'a [u8],
    spans: &'a mut [Span; PLACES],
    values: &DigitTable,
) -> First<'a>
    ensures { FirstFormed line.now result }
{
    if MOST_BYTES < line.len() {
        return First::Neither;
    }
    let Some(s) = next_token(line, 0) else {
        return First::Neither;
    };
    if line[s.end - 1] == b':' {
        return First::Whole(line_form(line, spans, values));
    }
    if line[s.start] == b'.' {
        return First::Neither;
    }
    First::Instruction
}

// The form of a line of right bytes, by the first shape that it has.
fn shape_form(tokens: &Tokens, values: &DigitTable) -> Form
    requires { length tokens.now.spans.now ≡ most_places }
    ensures form { result ≡ form_at (parsed directive_of shapes tokens.now.line.now).shape }
    ensures parts { part_count result ≤ tokens.now.count }
{
    let directive = b".word";
    if tokens.has_shape(directive, b"", values) {
        return Form::Nothing;
    }
    if tokens.is_lone_definition() {
        return Form::Label;
    }
    if tokens.has_shape(directive, b"o$,$,$,$,i,i", values) {
        return Form::Code;
    }
    if tokens.has_shape(directive, b":o$,$,$,$,i,i", values) {
        return Form::Labelled;
    }
    if tokens.has_shape(directive, b".00", values) {
        return Form::Word;
    }
    Form::Wrong
}

// Whether a line of a form passes questions 2 and 3.
pub fn is_right(f: Form) -> bool
    ensures { result ≡ is_right f }
{
    !matches!(f, Form::Wrong)
}

// Whether it defines a label.
pub fn has_label(f: Form) -> bool
    ensures { result ≡ has_label f }
{
    matches!(f, Form::Label | Form::Labelled)
}

// Whether it has an instruction.
pub fn has_code(f: Form) -> bool
    ensures { result ≡ has_code f }
{
    matches!(f, Form::Code | Form::Labelled)
}

// Whether it is `.word`.
pub fn has_word(f: Form) -> bool
    ensures { result ≡ has_word f }
{
    matches!(f, Form::Word)
}

// The questions of a line.
// Stays (1, 2, 5): the questions are asked in document 01's order, with what is known of the lines before.
ghost use Rattle.std.specs.Prelude.{◌≡◌, not, ◌&&◌, ◌||◌, List, [], ◌∷◌, ℕ, ◌≤◌, leb, ltb, take};
ghost use Rattle.text.specs.Questions.{accepted, first_no};
ghost use Rattle.text.specs.Lines.{lines};
ghost use Rattle.source.specs.Bytes.{are_right_bytes};
ghost use Rattle.source.specs.Lookup.{is_among};
ghost use Rattle.lines.specs.Line.{is_right, has_label, has_code, label_of};
ghost use Rattle.labels.specs.Text.{labels as labels_of};
ghost use Rattle.statements.specs.Questions.{asked_if, last_address, line_questions};
ghost use Rattle.statements.specs.Errors.{question_of};
ghost use Rattle.labels.specs.Limits.{most_labels};
ghost use Rattle.statements.specs.Reading.{StatementRead, After};

use crate::{LineError, Statement};
use labels::{Labels, MOST_LABELS};
use lines::forms::{has_code, has_label, is_right};
use lines::{Form, Line};
use source::bytes::are_right_bytes;

const LAST_ADDRESS: usize = 4095;

// The first question that a line gets a no to, if there is one: those on its bytes and its form, and others, whose answers are given.
#[inline(always)]
fn first_no(
    line: &Line,
    known: bool,
    inside: bool,
    fresh: bool,
    defined: bool,
    placed: bool,
) -> Result<(), LineError>
    ensures { question_of result ≡ (first_no ((2, are_right_bytes line.now.tokens.line.now) ∷ (3, is_right line.now.form) ∷ (4, known) ∷ (5, inside) ∷ (6, fresh) ∷ (7, defined) ∷ (8, placed) ∷ []) 0 (accepted 0)).number }
{
    if !is_right(line.form) {
        if are_right_bytes(line.tokens.line) {
            return Err(LineError::WrongForm);
        }
        return Err(LineError::BadBytes);
    }
    if !known {
        return Err(LineError::UnknownName);
    }
    if !inside {
        return Err(LineError::OutOfRange);
    }
    if !fresh {
        return Err(LineError::DefinedBefore);
    }
    if !defined {
        return Err(LineError::Undefined);
    }
    if !placed {
        return Err(LineError::NoPlace);
    }
    Ok(())
}

// "Label not defined on an earlier line? 6", where m labels are defined on earlier lines.
fn is_fresh(line: &Line, labels: &Labels, m: usize) -> bool
    requires { m ≤ labels.now.names.count }
    ensures { result ≡ asked_if (has_label line.now.form) (not (is_among (take m (labels_of (lines labels.now.names.source.now))) (label_of line.now.tokens.line.now))) }
{
    if !has_label(line.form) {
        return true;
    }
    let s = line.tokens.spans[0];
    labels
        .names
        .find(m, &line.tokens.line[s.start..s.end - 1])
        .is_none()
}

// "Instruction or label address at most 4095, label among the first 1,024? 8", after n instructions and m labels.
fn is_placed(f: Form, n: usize, m: usize) -> bool
    ensures { result ≡ (asked_if (has_code f || has_label f) (leb n last_address) && asked_if (has_label f) (ltb m most_labels)) }
{
    if has_label(f) {
        return n <= LAST_ADDRESS && m < MOST_LABELS;
    }
    !has_code(f) || n <= LAST_ADDRESS
}

// Asks a line its questions; n instructions and m labels stand before it.
#[inline(always)]
pub fn ask(line: &Line, s: Statement, labels: &Labels, n: usize, m: usize) -> Result<(), LineError>
    requires said { StatementRead (lines labels.now.names.source.now) line.now.tokens.line.now line.now.form s }
    requires few { m ≤ labels.now.names.count }
    ensures { (before : List (List ℕ)) → After (lines labels.now.names.source.now) before n m → question_of result ≡ (first_no (line_questions (lines labels.now.names.source.now) before line.now.tokens.line.now) 0 (accepted 0)).number }
{
    let fresh = is_fresh(line, labels, m);
    let placed = is_placed(line.form, n, m);
    first_no(line, s.known, s.inside, fresh, s.defined, placed)
}

// One line of assembly text: its form, and the names and numbers in it.
// Stays (1): a wrong line has a form too, of which the definitions speak; an op is kept by its number, which becomes the opcode.
#![tactic(auto)]

ghost use Rattle.std.specs.Prelude.{◌<◌};
ghost use Rattle.lines.specs.Parts.{Formed};

pub mod forms;
pub mod instructions;
pub mod ranges;

use source::tokens::Tokens;

// The form of a line.
#[derive(Clone, Copy)]
pub enum Form {
    // Blanks and a comment.
    Nothing,
    // A label.
    Label,
    // An instruction.
    Code,
    // A label and an instruction.
    Labelled,
    // `.word` with its address and its data.
    Word,
    // None of these. No Option: the definitions `form_at`, `form_of` and `is_right` have it as a form.
    Wrong,
}

// A line with its tokens and its form.
#[derive(Clone, Copy)]
pub struct Line<'a> {
    pub tokens: Tokens<'a>,
    pub form: Form,
    pub ghost formed: { Formed tokens.line.now tokens.count form },
}

// What the first token tells of a line.
#[derive(Clone, Copy)]
pub enum First<'a> {
    // It ends in a colon: the whole line was read.
    Whole(Line<'a>),
    // The line has an instruction and no label, if its form is right.
    Instruction,
    // It has neither.
    Neither,
}

// The names of an instruction by their numbers: that of the op among the operations, the others among the registers.
#[derive(Clone, Copy)]
pub struct Names {
    pub op: usize,
    pub rd: usize,
    pub rs: usize,
    pub rt: usize,
    pub rm: usize,
    pub ghost operation: { op < 22 },
    pub ghost registers: { (rd < 16) × (rs < 16) × (rt < 16) × (rm < 16) },
}

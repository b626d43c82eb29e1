// The first pass over an assembly text: its labels and their values.
// Stays (1, 2, 5): the labels' values stand beside their names in fixed memory (no heap).
#![tactic(auto)]

ghost use Rattle.text.specs.Lines.{lines};
ghost use Rattle.labels.specs.Tables.{LabelTable};

mod find;

pub use find::find_labels;
use symbols::Table;

// The most labels of a good text.
pub const MOST_LABELS: usize = 1024;

// The labels of a text: a table of their names, and the values of the first 1,024.
#[derive(Drop)]
pub struct Labels<'a> {
    pub names: Table<'a>,
    pub values: &'a [u32; MOST_LABELS],
    pub ghost found: { LabelTable names.source.now (lines names.source.now) names.words.now values.now names.count },
}

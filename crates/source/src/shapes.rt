// The shape of a line.
// Stays (1, 3, 5, 7): a shape is a text of signs, as the definition `matches` has it, so a sign is a byte; signs and tokens go by one number, since `text` takes a token's.
ghost use Rattle.std.specs.Prelude.{◌≡◌, ◌||◌, List, ℕ, ◌<◌, is_some, length};
ghost use Rattle.text.specs.Bytes.{bytes};
ghost use Rattle.source.specs.Tokens.{tokens, texts};
ghost use Rattle.source.specs.Numbers.{number, is_number};
ghost use Rattle.source.specs.Names.{is_name as is_name_of};
ghost use Rattle.source.specs.Shapes.{fits, matches};

use crate::names::{is_definition, is_name, is_register};
use crate::numbers::read_number;
use crate::tokens::Tokens;
use text::digits::DigitTable;
use text::same::are_same;

impl<'a> Tokens<'a> {
    // Whether the line has a shape: a sign for each of its tokens.
    pub fn has_shape(&self, directive: &[u8], shape: &[u8], values: &DigitTable) -> bool
        requires { length shape.now < length self.now.spans.now }
        ensures { result ≡ matches directive.now shape.now (texts (tokens self.now.line.now)) }
    {
        if shape.len() != self.count {
            return false;
        }
        for k in 0..shape.len() {
            if !fits_sign(directive, shape[k], self.text(k), values) {
                return false;
            }
        }
        true
    }

    // Whether the line is a label's definition alone, whatever the directive is.
    pub fn is_lone_definition(&self) -> bool
        requires { 1 < length self.now.spans.now }
        ensures { (directive : List ℕ) → result ≡ matches directive (bytes ":") (texts (tokens self.now.line.now)) }
    {
        self.count == 1 && is_definition(self.text(0))
    }
}

// Whether a token fits a sign.
#[tactic(auto, unfolding(crate::specs::Shapes::fits))]
fn fits_sign(directive: &[u8], sign: u8, t: &[u8], values: &DigitTable) -> bool
    ensures { result ≡ fits directive.now sign t.now }
{
    match sign {
        b':' => is_definition(t),
        b'o' => is_name(t),
        b'$' => is_register(t),
        b',' => are_same(t, b","),
        b'0' => is_number(t, values),
        b'i' => is_immediate(t, values),
        b'.' => are_same(t, directive),
        _ => false,
    }
}

// Whether a token is a number.
pub fn is_number(t: &[u8], values: &DigitTable) -> bool
    ensures { result ≡ is_number (number t.now) }
{
    read_number(t, values).is_some()
}

// Whether a token is an immediate: a number or a label.
fn is_immediate(t: &[u8], values: &DigitTable) -> bool
    ensures { result ≡ (is_number (number t.now) || is_name_of t.now) }
{
    is_number(t, values) || is_name(t)
}

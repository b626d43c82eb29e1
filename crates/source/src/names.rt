// The forms of names.
ghost use Rattle.std.specs.Prelude.{◌≡◌};
ghost use Rattle.source.specs.Names.{is_name, is_register, is_definition};

use crate::bytes::{are_letters_or_digits, is_letter};

// The most letters and digits of a label.
const MOST_LETTERS: usize = 50;

// Whether a token has the form of a label or of an op.
#[tactic(auto, unfolding(crate::specs::Names::is_name))]
pub fn is_name(t: &[u8]) -> bool
    ensures { result ≡ is_name t.now }
{
    !t.is_empty() && is_letter(t[0]) && t.len() <= MOST_LETTERS && are_letters_or_digits(t)
}

// Whether a token has the form of a register.
#[tactic(auto, unfolding(crate::specs::Names::is_register))]
pub fn is_register(t: &[u8]) -> bool
    ensures { result ≡ is_register t.now }
{
    match t {
        [b'$', rest @ ..] => !rest.is_empty() && are_letters_or_digits(rest),
        _ => false,
    }
}

// Whether a token defines a label: a name and a colon.
#[tactic(auto, unfolding(crate::specs::Names::is_definition))]
pub fn is_definition(t: &[u8]) -> bool
    ensures { result ≡ is_definition t.now }
{
    match t {
        [name @ .., b':'] => is_name(name),
        _ => false,
    }
}

// A number of cycles in an argument.
ghost use Rattle.std.specs.Prelude.{◌≡◌};
ghost use Rattle.memories.specs.Budget.{budget_of, BudgetRead};

use console::{Name, say_of};
use text::digits::DigitTable;

// The most digits of a number of cycles.
const DIGITS: usize = 13;

// The number of cycles that an argument gives, in 1 to 13 decimal digits; none where it gives none, as is said.
pub fn read_budget(rt: HostRuntime, i: usize) -> Option<u64>
    ensures { BudgetRead result }
{
    let name = Name::of_argument(rt, i);
    let budget = budget_of(name.bytes());
    if budget.is_none() {
        say_of(
            rt,
            name.bytes(),
            b": no number of cycles (it has 1 to 13 decimal digits)\n",
        );
    }
    budget
}

// The number of cycles that a word gives, if it gives one.
fn budget_of(word: &[u8]) -> Option<u64>
    ensures { result ≡ budget_of word.now }
{
    if word.len() == 0 || DIGITS < word.len() {
        return None;
    }
    DigitTable::new().read_digits(word, 10)
}

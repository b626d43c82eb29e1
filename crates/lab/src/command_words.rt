// The words of the commands.
// Stays (4, 7): the definition `command_of` asks word by word; `FromStr` takes text, which an argument need not be.
ghost use Rattle.std.specs.Prelude.{◌≡◌};
ghost use Rattle.lab.specs.Words.{command_of};

use crate::Command;
use text::same::are_same;

// The command that a word names, if it names one.
pub fn command_of(word: &[u8]) -> Option<Command>
    ensures { result ≡ command_of word.now }
{
    if are_same(word, b"list") {
        return Some(Command::List);
    }
    if are_same(word, b"show") {
        return Some(Command::Show);
    }
    if are_same(word, b"picture") {
        return Some(Command::Picture);
    }
    if are_same(word, b"resume") {
        return Some(Command::Resume);
    }
    if are_same(word, b"hex") {
        return Some(Command::Hex);
    }
    None
}

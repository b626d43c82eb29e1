// The steps in the arguments.
// Stays (1, 4, 6, 7): a word's letter is the key by which `Keys.step_of` knows the step; a name need not be text, so a line is bytes in an array (no heap).
ghost use Rattle.std.specs.Prelude.{◌≡◌, ◌+◌, ◌^◌, ◌≤◌, ◌<◌, length};
ghost use Rattle.console.specs.Counts.{IsPrefixLen};
ghost use Rattle.check_commands.specs.Keys.{key_of, step_of, words_of};

use console::{LINE, Name, put_if_room, say};

// A step.
#[derive(Clone, Copy)]
pub enum Step {
    Assemble,
    List,
    Simulate,
    Resume,
    Show,
    Picture,
    Hex,
    Equal,
    Numbers,
}

// The step of a key; any other key than those of the steps stands for the refusals' numbers.
pub fn step_of(key: u8) -> Step
    ensures { result ≡ step_of key }
{
    match key {
        b'a' => Step::Assemble,
        b'l' => Step::List,
        b'm' => Step::Simulate,
        b'r' => Step::Resume,
        b'o' => Step::Show,
        b'p' => Step::Picture,
        b'h' => Step::Hex,
        b'e' => Step::Equal,
        _ => Step::Numbers,
    }
}

// The key of a step by its word: the first letter, or the third of a word that begins with s.
pub fn key_of(word: &[u8; 4096]) -> u8
    ensures { result ≡ key_of word.now }
{
    if word[0] == b's' {
        return word[2];
    }
    word[0]
}

// How many words a step has.
pub fn words_of(step: Step) -> usize
    ensures { (result ≡ words_of step) × (1 ≤ result) × (result ≤ 16) }
{
    match step {
        Step::Assemble => 4,
        Step::List => 2,
        Step::Simulate => 16,
        Step::Resume => 9,
        Step::Show => 2,
        Step::Picture => 3,
        Step::Hex => 5,
        Step::Equal => 3,
        Step::Numbers => 1,
    }
}

// Prints the words of a step.
pub fn say_step(rt: HostRuntime, i: usize, words: usize)
    requires { (i + words < 2 ^ 64) × (words ≤ 16) }
{
    let mut line = [0u8; LINE];
    let mut at = put_if_room(&mut line, 0, b">");
    for k in i..i + words {
        at = put_word(rt, &mut line, at, k);
    }
    at = put_if_room(&mut line, at, b"\n");
    say(rt, &line[..at]);
}

// Puts a blank and an argument at a place of a line and returns the place after them.
fn put_word(rt: HostRuntime, line: &mut [u8], at: usize, i: usize) -> usize
    requires { at ≤ length line.old }
    ensures { IsPrefixLen result line.new }
{
    let word_at = put_if_room(line, at, b" ");
    put_if_room(line, word_at, Name::of_argument(rt, i).bytes())
}

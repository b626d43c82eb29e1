// Files that arguments name.
// Stays (1, 2, 6): each hands its argument's name to one function of `console`, in a line; a number is the documents', and callers join the answers.
ghost use Rattle.std.specs.Prelude.{◌≡◌};
ghost use Rattle.console.specs.Writings.{Ended, Committed};
ghost use Rattle.memories.specs.Cycles.{outcome_count};

use console::{
    Name, Writing, begin_file, begin_more, commit_file, drop_file, end_file, is_missing, say_of,
    say_refusal,
};
use text::Outcome;

// Begins the file that an argument names.
pub fn begin_at(rt: HostRuntime, i: usize) -> Option<Writing> {
    begin_file(rt, Name::of_argument(rt, i).bytes())
}

// Begins it with what the old one has.
pub fn more_at(rt: HostRuntime, i: usize) -> Option<Writing> {
    begin_more(rt, Name::of_argument(rt, i).bytes())
}

// Closes it.
pub fn end_at(rt: HostRuntime, i: usize, w: Option<Writing>) -> Option<Writing>
    ensures { Ended w result }
{
    end_file(rt, Name::of_argument(rt, i).bytes(), w)
}

// Puts it into the place of the old one, and answers whether it is there then.
pub fn commit_at(rt: HostRuntime, i: usize, w: Option<Writing>) -> bool
    ensures { Committed w result }
{
    commit_file(rt, Name::of_argument(rt, i).bytes(), w)
}

// Closes and removes it; the old one stays.
pub fn drop_at(rt: HostRuntime, i: usize, w: Option<Writing>) {
    drop_file(rt, Name::of_argument(rt, i).bytes(), w);
}

// Whether there is nothing where an argument says. (What a file system has can't be said in a contract.)
pub fn is_missing_at(rt: HostRuntime, i: usize) -> bool {
    is_missing(rt, Name::of_argument(rt, i).bytes())
}

// The count of what the file that an argument names gave; none of a refusal, as is said.
pub fn accept_at(rt: HostRuntime, i: usize, outcome: Outcome) -> Option<usize>
    ensures { result ≡ outcome_count outcome }
{
    accept(rt, Name::of_argument(rt, i).bytes(), outcome)
}

// The same of a file by its path.
pub fn accept(rt: HostRuntime, path: &[u8], outcome: Outcome) -> Option<usize>
    ensures { result ≡ outcome_count outcome }
{
    if outcome.number != 0 {
        say_refusal(rt, path, outcome.number, outcome.place);
        return None;
    }
    Some(outcome.count)
}

// Says that the file that an argument names is refused.
pub fn refuse_at(rt: HostRuntime, i: usize, number: u32, place: usize) {
    say_refusal(rt, Name::of_argument(rt, i).bytes(), number, place);
}

// Says words of the file that an argument names, after its name.
pub fn say_at(rt: HostRuntime, i: usize, words: &[u8]) {
    say_of(rt, Name::of_argument(rt, i).bytes(), words);
}

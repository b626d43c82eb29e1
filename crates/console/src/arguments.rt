// Names of files in the program's arguments.
// Stays (1, 2, 4, 5, 6): `are_names` says why not and answers yes or no; a name need not be text, so the line is put together from bytes in an array (no heap).
ghost use Rattle.std.specs.Prelude.{◌≡◌, false, List, ℕ, ◌+◌, ◌^◌, ◌≤◌, ◌<◌, take, IfSome};
ghost use Rattle.console.specs.Counts.{IsPrefixLen};

use crate::output::{put_if_room, put_number, say};
use std::env::{Env, FillError};
use std::marker::Model;

// Room for an argument, which may be the name of a file.
pub const NAME: usize = 4096;

// The name of a file, as an argument gives it; the empty name, which no file has, where the argument is missing or there is no room for it.
#[derive(Drop)]
pub struct Name {
    room: [u8; NAME],
    len: usize,
}

impl Model for Name {
    ghost Value = { List ℕ };

    ghost view = { λ name. take name.len name.room };

    ghost invariant = { λ name. name.len ≤ 4096 };
}

impl Name {
    // The name that an argument gives.
    pub fn of_argument(rt: HostRuntime, i: usize) -> Name {
        let mut room = [0u8; NAME];
        let len = argument(rt, i, &mut room).unwrap_or(0);
        Name { room, len }
    }

    // Its bytes.
    pub fn bytes(&self) -> &[u8]
        ensures { result.now ≡ self.now }
    {
        &self.room[..self.len]
    }
}

// How many arguments there are, the program's name among them.
pub fn argument_count(rt: HostRuntime) -> usize {
    let mut none = [0u8; 0];
    for i in 0..usize::MAX {
        if let Err(FillError::NotPresent) = rt.arg(i, &mut none) {
            return i;
        }
    }
    usize::MAX
}

// Puts an argument at the front and returns its length; none where it is missing or there is no room for it.
pub fn argument(rt: HostRuntime, i: usize, out: &mut [u8]) -> Option<usize>
    ensures { IfSome result (λ n. IsPrefixLen n out.new) }
{
    rt.arg(i, out).ok()
}

// Whether the arguments from `first` on, so many, can all be names of files; says of the first that can't.
pub fn are_names(rt: HostRuntime, first: usize, count: usize) -> bool
    requires { first + count < 2 ^ 64 }
    ensures { result ≡ false → 0 < count }
{
    for i in first..first + count {
        if !is_name(rt, i) {
            say_no_name(rt, i);
            return false;
        }
    }
    true
}

// Whether an argument has bytes, and not too many.
fn is_name(rt: HostRuntime, i: usize) -> bool {
    let mut name = [0u8; NAME];
    argument(rt, i, &mut name).is_some_and(|n| 0 < n)
}

// Says that an argument is empty or too long.
fn say_no_name(rt: HostRuntime, i: usize) {
    let mut line = [0u8; 64];
    let number_at = put_if_room(&mut line, 0, b"argument ");
    let words_at = put_number(&mut line, number_at, i);
    let end = put_if_room(&mut line, words_at, b" is empty or too long\n");
    say(rt, &line[..end]);
}

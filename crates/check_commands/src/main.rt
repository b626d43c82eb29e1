// The commands, tried by running, with what they write. The arguments are steps: a word and what it takes.
//     asm PROGRAM IMEM DMEM        the command asm;
//     list IMEM                    the command list;
//     sim IMEMIN .. MONITOR CYCLES the command sim, of fourteen names and a number of cycles;
//     resume IMEM .. LOG           the command resume, of eight;
//     show RECORD                  the command show;
//     picture MONITOR PGM          the command picture;
//     hex WAY MEMORY FROM TO       the command hex;
//     equal A B                    says whether two files hold the same bytes;
//     numbers                      the lines of the refusals 0 to 21 at place 7, and of 12 and 16 at place 0.
// Before each step it prints the step's words. Where data/ has files that are expected, its README.md says where they come from.
// Stays (3): the loop goes from step to step, each of as many arguments as its word says.
#![tactic(auto)]

mod compare;
mod steps;

ghost use Rattle.std.specs.Prelude.{◌+◌, ◌^◌, ◌<◌};

use crate::compare::compare_files;
use crate::steps::{Step, key_of, say_step, step_of, words_of};
use commands::{assemble_file, draw_frame, list_file, show_record};
use console::{NAME, argument, argument_count, open_missing_standard_streams, say_refusal};
use hex_commands::{conversion_at, convert};
use memories::read_budget;
use run_commands::{resume, simulate};

// More arguments than the steps have.
const MOST: usize = 65_536;

fn main(rt: HostRuntime) {
    open_missing_standard_streams(rt);
    let count = argument_count(rt);
    if MOST < count {
        return;
    }
    // The loop goes from step to step, each of as many arguments as its word says.
    let mut left = count;
    let mut i = 1;
    while 1 < left {
        let step = step_at(rt, i);
        let words = words_of(step);
        if left <= words {
            return;
        }
        say_step(rt, i, words);
        run_step(rt, step, i);
        left -= words;
        i += words;
    }
}

// The step whose word an argument is.
fn step_at(rt: HostRuntime, i: usize) -> Step {
    let mut word = [0u8; NAME];
    let _ = argument(rt, i, &mut word);
    step_of(key_of(&word))
}

// Runs the step at an argument.
fn run_step(rt: HostRuntime, step: Step, i: usize)
    requires { i + 16 < 2 ^ 64 }
{
    match step {
        Step::Assemble => assemble_file(rt, i + 1),
        Step::List => list_file(rt, i + 1),
        Step::Simulate => simulate_step(rt, i),
        Step::Resume => resume(rt, i + 1),
        Step::Show => show_record(rt, i + 1),
        Step::Picture => draw_frame(rt, i + 1),
        Step::Hex => convert(rt, conversion_at(rt, i + 1), i + 3),
        Step::Equal => compare_files(rt, i + 1, i + 2),
        Step::Numbers => say_refusals(rt),
    }
}

// Runs a step of the command sim.
fn simulate_step(rt: HostRuntime, i: usize)
    requires { i + 16 < 2 ^ 64 }
{
    if let Some(budget) = read_budget(rt, i + 15) {
        simulate(rt, i + 1, budget);
    }
}

// Says each refusal.
fn say_refusals(rt: HostRuntime) {
    for number in 0..22 {
        say_refusal(rt, b"file", number, 7);
    }
    say_refusal(rt, b"file", 12, 0);
    say_refusal(rt, b"file", 16, 0);
}

// The lab's commands, each by its word: `lab list IMEM`, `lab show RECORD`, `lab picture MONITOR PGM`, `lab hex read data HEX DMEM` and three more,
// `lab resume IMEM .. LOG`. Without a word it prints what they are; with a word alone, how that command is used.
// Stays (7): `lab hex` asks two words more than the other commands, before the names.
#![tactic(auto)]

mod command_words;
mod help;

ghost use Rattle.std.specs.Prelude.{◌≤◌};

use crate::command_words::command_of;
use crate::help::{
    print_hex_help, print_list_help, print_overview, print_picture_help, print_resume_help,
    print_show_help,
};
use commands::{draw_frame, list_file, show_record};
use console::{Name, are_names, argument_count, open_missing_standard_streams};
use hex_commands::{conversion_at, convert};
use run_commands::resume;

// What a word names.
#[derive(Clone, Copy)]
pub enum Command {
    List,
    Show,
    Picture,
    Resume,
    Hex,
}

fn main(rt: HostRuntime) {
    open_missing_standard_streams(rt);
    let count = argument_count(rt);
    if count < 2 {
        print_overview(rt);
        return;
    }
    match command_of(Name::of_argument(rt, 1).bytes()) {
        Some(Command::List) => with_names(
            rt,
            count,
            1,
            || print_list_help(rt),
            || list_file(rt, 2),
        ),
        Some(Command::Show) => with_names(
            rt,
            count,
            1,
            || print_show_help(rt),
            || show_record(rt, 2),
        ),
        Some(Command::Picture) => with_names(
            rt,
            count,
            2,
            || print_picture_help(rt),
            || draw_frame(rt, 2),
        ),
        Some(Command::Resume) => with_names(
            rt,
            count,
            8,
            || print_resume_help(rt),
            || resume(rt, 2),
        ),
        Some(Command::Hex) => hex(rt, count),
        None => print_overview(rt),
    }
}

// Runs a command whose arguments are so many names after its word; prints its help where there are more or fewer.
fn with_names<H, C>(rt: HostRuntime, count: usize, names: usize, help: H, command: C)
where
    H: FnOnce(),
    C: FnOnce(),
    requires few { names ≤ 8 }
    requires helps { H.IsAlwaysCallable help }
    requires commands { C.IsAlwaysCallable command }
{
    if count != names + 2 {
        help();
    } else if are_names(rt, 2, names) {
        command();
    }
}

// lab hex read data HEX DMEM, lab hex read disk HEX DISK, lab hex write data DMEM HEX, lab hex write disk DISK HEX
fn hex(rt: HostRuntime, count: usize) {
    let conversion = if count == 6 {
        conversion_at(rt, 2)
    } else {
        None
    };
    if conversion.is_none() {
        print_hex_help(rt);
    } else if are_names(rt, 4, 2) {
        convert(rt, conversion, 4);
    }
}

// Assembles a program into its two memory files: `asm PROGRAM IMEM DMEM`. Without three arguments it prints a help text.
#![tactic(auto)]

mod help;

use crate::help::print_help;
use commands::assemble_file;
use console::{are_names, argument_count, open_missing_standard_streams};

fn main(rt: HostRuntime) {
    open_missing_standard_streams(rt);
    if argument_count(rt) != 4 {
        print_help(rt);
        return;
    }
    if are_names(rt, 1, 3) {
        assemble_file(rt, 1);
    }
}

// Runs the folders that its arguments name, each from the fresh record with budget 100,000 cycles. Of each it prints the folder's name, the log and
// the line E; where a file of the folder is refused, the line N in place of the log.
// Stays (1, 4, 6): the line N has the refusal's number and place; the cycles' count is the outcome's.
#![tactic(auto)]

mod load;
mod open;

use crate::load::{load_irq2, load_memories};
use console::{Name, argument_count};
use long_run::{print_line_e, print_line_n, run_budget};

fn main(rt: HostRuntime) {
    let count = argument_count(rt);
    for i in 1..count {
        run_argument(rt, i);
    }
}

// Runs the folder that an argument names.
fn run_argument(rt: HostRuntime, i: usize) {
    let name = Name::of_argument(rt, i);
    print_name(rt, name.bytes());
    run_folder(rt, name.bytes());
}

// Prints the line that stands before a folder's log.
fn print_name(rt: HostRuntime, name: &[u8]) {
    let _ = rt.write_all(b"= ");
    let _ = rt.write_all(name);
    let _ = rt.write_all(b"\n");
}

// Runs a folder's files and prints the log and the line E, or the line N of the first file that is refused.
fn run_folder(rt: HostRuntime, folder: &[u8]) {
    let mut image = [0u64; 4096];
    let mut memory = [0u32; 4096];
    let mut disk = [0u32; 16384];
    let outcome = load_memories(rt, folder, &mut image, &mut memory, &mut disk);
    if outcome.number != 0 {
        print_line_n(rt, outcome.number, outcome.place);
        return;
    }
    let mut cycles = [0u64; 4096];
    let irq2 = load_irq2(rt, folder, &mut cycles);
    if irq2.number != 0 {
        print_line_n(rt, irq2.number, irq2.place);
        return;
    }
    let count = irq2.count;
    let mut frame = [0u8; 65536];
    let end = run_budget(
        rt,
        &image,
        &mut memory,
        &mut disk,
        &mut frame,
        &cycles[..count],
    );
    if end.written {
        print_line_e(rt, end.state.core.status, end.state.core.age);
    }
}

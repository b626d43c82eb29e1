// The files that are written after a run: dmemout, regout, cycles, diskout and the monitor's two.
// Stays (1, 2, 5, 6, 7): each file is tried, whatever came of those before it, so the answers are joined; what the two texts share is one line.
ghost use Rattle.std.specs.Prelude.{◌+◌, ◌^◌, ◌<◌};

use machine::Record;
use memories::{commit_at, write_new_bytes, write_new_data, write_new_disk, write_new_frame};
use outputs::{put_cycles, put_registers};

// Writes them, the 5th, 6th, 9th, 12th, 13th and 14th of the fourteen, and answers whether all are written. (Each is tried, whatever came of those before it.)
pub fn write_ends(
    rt: HostRuntime,
    first: usize,
    state: Record,
    memory: &[u32; 4096],
    disk: &[u32; 16384],
    frame: &[u8; 65536],
) -> bool
    requires { first + 14 < 2 ^ 64 }
{
    let data = commit_at(rt, first + 4, write_new_data(rt, first + 4, memory));
    let registers = write_registers(rt, first + 5, state.regs);
    let cycles = write_cycles(rt, first + 8, state.core.age);
    let diskout = commit_at(rt, first + 11, write_new_disk(rt, first + 11, disk));
    let monitor = commit_at(rt, first + 12, write_new_frame(rt, first + 12, frame));
    let pixels = commit_at(rt, first + 13, write_new_bytes(rt, first + 13, frame));
    data && registers && cycles && diskout && monitor && pixels
}

// Writes R3 to R15.
fn write_registers(rt: HostRuntime, i: usize, regs: [u32; 13]) -> bool {
    let mut text = [0u8; 117];
    let n = put_registers(&regs, &mut text);
    commit_at(rt, i, write_new_bytes(rt, i, &text[..n]))
}

// Writes the number of cycles.
fn write_cycles(rt: HostRuntime, i: usize, age: u64) -> bool {
    let mut text = [0u8; 21];
    let n = put_cycles(age, &mut text);
    commit_at(rt, i, write_new_bytes(rt, i, &text[..n]))
}

// Reads an instruction file from standard input and runs it, other memories zero, no irq2 cycles, budget 100,000 cycles. Prints the log and then
// the line E; of a file that is refused the line N alone.
// Stays (1, 2, 6): the line N has the refusal's number and place; `FrontRead` speaks of a buffer and how much of it a file fills.
#![tactic(auto)]

ghost use Rattle.std.specs.Prelude.{◌≤◌, ◌<◌, length};
ghost use Rattle.files.specs.Sizes.{image_digits, is_image_length};
ghost use Rattle.files.specs.Front.{FrontRead};
ghost use Rattle.simlog.specs.Simlog.{Ran};

use console::read_full;
use files::read_image;
use long_run::{RunEnd, print_line_e, print_line_n, run_budget};
use text::Outcome;
use text::outcomes::done;

// The bytes that decide how a file of any length is read: those of 4,096 lines, and one more.
const FRONT: usize = 53_249;

fn main(rt: HostRuntime) {
    let mut text = [0u8; FRONT];
    let n = read_full(&mut rt.stdin(), &mut text);
    let mut image = [0u64; 4096];
    let outcome = read_front(&text, n, &mut image);
    if outcome.number != 0 {
        print_line_n(rt, outcome.number, outcome.place);
        return;
    }
    let end = run_image(rt, &image);
    if end.written {
        print_line_e(rt, end.state.core.status, end.state.core.age);
    }
}

// Reads the image of a text of any length, of which the buffer holds the front in its first n bytes.
fn read_front(buffer: &[u8], n: usize, image: &mut [u64; 4096]) -> Outcome
    requires { (53248 < length buffer.now) × (n ≤ length buffer.now) }
    ensures { FrontRead image_digits is_image_length buffer.now n result image.old image.new }
{
    done(read_image(&buffer[..n], image))
}

// Runs an image and prints the log.
fn run_image(rt: HostRuntime, image: &[u64; 4096]) -> RunEnd
    ensures { Ran image.now result }
{
    let mut memory = [0u32; 4096];
    let mut disk = [0u32; 16384];
    let mut frame = [0u8; 65536];
    let irq2 = [0u64; 0];
    run_budget(rt, image, &mut memory, &mut disk, &mut frame, &irq2)
}

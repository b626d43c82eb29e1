// Runs one after the other from the fresh record: what bench/ measures, and what demand 3 says of real calls.
// Stays (3): each run says how many cycles it made, so the loop counts by what is left.
#![tactic(auto)]

ghost use Rattle.saved.specs.Calls.{fresh_record};
ghost use Rattle.runner.specs.Lab.{standing_of};
ghost use Rattle.bench_run.specs.ByCalls.{ByCalls, ByOneRun, stands_with};

use runner::run;
use saved::fresh_record;

// One run. Returns the log bytes that it wrote.
#[unsafe(no_mangle)]
pub extern "C" fn simp_bench_run(
    image: &[u64],
    memory: &mut [u32],
    disk: &mut [u32],
    frame: &mut [u8],
    irq2: &[u64],
    budget: u64,
    log: &mut [u8],
) -> usize
    ensures { ByOneRun irq2.now budget log.old (standing_of image.now fresh_record memory.old disk.old frame.old) result log.new (stands_with image.now memory.new disk.new frame.new) }
{
    let r = run(
        fresh_record(),
        image,
        memory,
        disk,
        frame,
        irq2,
        budget,
        log,
    );
    r.bytes
}

// Runs with this budget in all, each lent the log anew, until it is spent or a run makes no cycle. Returns the cycles made.
#[unsafe(no_mangle)]
pub extern "C" fn simp_bench_runs(
    image: &[u64],
    memory: &mut [u32],
    disk: &mut [u32],
    frame: &mut [u8],
    irq2: &[u64],
    budget: u64,
    log: &mut [u8],
) -> u64
    ensures { ByCalls irq2.now budget log.old (standing_of image.now fresh_record memory.old disk.old frame.old) result log.new (stands_with image.now memory.new disk.new frame.new) }
{
    let mut state = fresh_record();
    let mut left = budget;
    while 0 < left {
        let r = run(state, image, memory, disk, frame, irq2, left, log);
        state = r.state;
        if r.cycles == 0 {
            return budget - left;
        }
        left -= r.cycles;
    }
    budget
}

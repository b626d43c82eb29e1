// A run.
// Stays (2): the C interface, as an export of the call of simp.
ghost use Rattle.simp.specs.Runs.{simp_run, Runs};

// Runs the machine of 40 numbers and lent memories.
#[unsafe(no_mangle)]
pub extern "C" fn simp_run(
    numbers: &mut [u64],
    image: &[u64],
    memory: &mut [u32],
    disk: &mut [u32],
    frame: &mut [u8],
    irq2: &[u64],
    budget: u64,
    log: &mut [u8],
    report: &mut [u64],
) -> u32
    ensures { Runs (simp_run numbers.old image.now memory.old disk.old frame.old irq2.now budget log.old report.old) numbers.old report.old result numbers.new memory.new disk.new frame.new log.new report.new }
{
    simp::simp_run(
        numbers, image, memory, disk, frame, irq2, budget, log, report,
    )
}

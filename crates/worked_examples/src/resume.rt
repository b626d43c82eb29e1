// A run that is stopped and resumed.
// Stays (4, 5): two must-fail edits change these lines; the C interface lends the memories one by one.
ghost use Rattle.worked_examples.specs.StopAndResume.{lent_of, StopAndResume};

use crate::Resumed;
use crate::trips::{save_and_load, write_and_read};
use runner::run;
use saved::fresh_record;

// Runs from the fresh record; saves and loads the record; writes a sector of the disk as text, reads it back and puts it in its place; and runs on.
// A call that is refused changes nothing, and the next one goes on with what stood before it.
pub fn stop_and_resume(
    image: &[u64],
    memory: &mut [u32],
    disk: &mut [u32],
    frame: &mut [u8],
    irq2: &[u64],
    first: u64,
    first_log: &mut [u8],
    bytes: &mut [u8],
    sector: usize,
    text: &mut [u8],
    words: &mut [u32; 128],
    second: u64,
    second_log: &mut [u8],
) -> Resumed
    ensures { StopAndResume irq2.now first sector second (lent_of image.now memory.old disk.old frame.old first_log.old bytes.old text.old words.old second_log.old) result (lent_of image.now memory.new disk.new frame.new first_log.new bytes.new text.new words.new second_log.new) }
{
    let fresh = fresh_record();
    let stopped = run(fresh, image, memory, disk, frame, irq2, first, first_log);
    let state = stopped.state;
    let trip = save_and_load(state, bytes);
    let placed = write_and_read(disk, sector, text, words);
    let loaded = trip.state;
    let resumed = run(loaded, image, memory, disk, frame, irq2, second, second_log);
    Resumed {
        first: stopped,
        trip: trip,
        sector: placed,
        second: resumed,
    }
}

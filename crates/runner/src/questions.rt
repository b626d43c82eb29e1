// What a run asks.
// Stays (2, 4): the least of a sum and the limit is asked so that the sum can't wrap; the limit is said where its question is asked.
ghost use Rattle.std.specs.Prelude.{◌≡◌, cond, not, ◌&&◌, List, ℕ, ◌+◌, ◌-◌, ◌≤◌, ◌<◌, eqb, leb, ltb, length, get_or, drop};
ghost use Rattle.files.specs.Sizes.{is_image_length, is_data_length, is_disk_length, is_frame_length, cycle_limit};
ghost use Rattle.machine.specs.Cycle.{at_fetch};
ghost use Rattle.machine.specs.Log.{lines_at_fetch};
ghost use Rattle.machine.specs.Soundness.{Sound};
ghost use Rattle.executor.specs.Lent.{packed};
ghost use Rattle.runner.specs.Answers.{reason_number, reason_of};

use crate::{Ended, Reason};
use machine::Core;
use simulator::lengths::lines_length;

// The age at which no cycle is made.
const CYCLE_LIMIT: u64 = 0xFF_FFFF_FFFF;

// The most bytes that a cycle logs.
const MOST_BYTES: usize = 231;

// Whether the lent lengths are those of document 01, the image's too.
pub fn are_lengths(image: usize, memory: usize, disk: usize, frame: usize) -> bool
    ensures { result ≡ (is_image_length image && is_data_length memory && is_disk_length disk && is_frame_length frame) }
{
    image == 4096 && memory == 4096 && disk == 16384 && frame == 65536
}

// The age of a machine of this age when its budget is spent, or the limit where that comes first.
pub fn last_age(age: u64, budget: u64) -> u64
    requires { age ≤ cycle_limit }
    ensures value { result ≡ cond (ltb budget (cycle_limit - age)) (age + budget) cycle_limit }
    ensures lower_bound { (age ≤ result) × ((result ≤ age + budget) × (result ≤ cycle_limit)) }
{
    if budget < CYCLE_LIMIT - age {
        return age + budget;
    }
    CYCLE_LIMIT
}

// Whether a machine that is not at its budget's end and not at the limit makes a cycle: it has not stopped, and the cycle's lines fit `room` bytes.
// `hit`: the age is in the irq2 list.
pub fn may_cycle(
    c: Core,
    hit: bool,
    regs: &[u32; 16],
    io: &[u32; 23],
    image: &[u64],
    room: usize,
) -> bool
    requires sound { Sound c (drop 3 regs.now) io.now }
    requires young { c.age < cycle_limit }
    requires sized { (length regs.now ≡ 16) × (get_or regs.now 0 0 ≡ 0) × (length image.now ≡ 4096) }
    ensures { (memory disk frame : List ℕ) → result ≡ (eqb c.status 0 && not (eqb c.age cycle_limit) && leb (length (lines_at_fetch image.now (at_fetch hit (packed c regs.now io.now memory disk frame)))) room) }
{
    if c.status != 0 {
        return false;
    }
    if MOST_BYTES <= room {
        return true;
    }
    lines_length(c, hit, regs, io, image) <= room
}

// The end of a run whose machine makes no further cycle: why, in the order in which a run asks.
pub fn ended(c: Core, cycles: u64, budget: u64, at: usize) -> Ended
    ensures place { (result.core ≡ c) × (result.cycles ≡ cycles) × (result.at ≡ at) }
    ensures reason { reason_number result.reason ≡ reason_of c cycles budget }
{
    Ended {
        core: c,
        cycles,
        at,
        reason: why(c, cycles, budget),
    }
}

// Why a machine makes no further cycle.
fn why(c: Core, cycles: u64, budget: u64) -> Reason
    ensures { reason_number result ≡ reason_of c cycles budget }
{
    if c.status != 0 {
        return Reason::Stopped;
    }
    if c.age == CYCLE_LIMIT {
        return Reason::AtLimit;
    }
    if budget <= cycles {
        return Reason::BudgetSpent;
    }
    Reason::LogFull
}

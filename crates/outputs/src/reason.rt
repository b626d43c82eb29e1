// Where and why a run stopped.
// Stays (2, 4, 7): with a `match` the last arm would know nothing of 0 and 1, which the contract needs; the line goes to a place of a lent buffer (no heap); the limit is document 01's number.
ghost use Rattle.std.specs.Prelude.{◌+◌, ◌≤◌, length, ◌≡◌};
ghost use Rattle.text.specs.Place.{put, PutsWithin};
ghost use Rattle.console.specs.Counts.{IsPrefixLen};
ghost use Rattle.outputs.specs.Reasons.{unfinished, cause_of, reason_line};

use crate::pc::put_pc;
use crate::status::put_status;
use machine::Core;
use text::lines::LF;
use text::place::put_bytes;

// The age at which a machine makes no cycle any more.
const CYCLE_LIMIT: u64 = 0xFF_FFFF_FFFF;

// Puts the line of where and why a run stopped at a place and returns the place after it.
pub fn put_reason(core: Core, out: &mut [u8], at: usize) -> usize
    requires { at + 80 ≤ length out.old }
    ensures { (out.new ≡ put out.old at (reason_line core)) × (result ≡ at + length (reason_line core)) × (result ≤ at + 80) × IsPrefixLen result out.new }
{
    let pc_at = put_bytes(out, at, b"stopped at PC ");
    let colon_at = put_pc(out, pc_at, core.pc);
    let cause_at = put_bytes(out, colon_at, b": ");
    let end = put_cause(core, out, cause_at);
    out[end] = LF;
    end + 1
}

// Why a run stopped. (With a `match` the last arm would know nothing of 0 and 1, which the contract needs.)
fn put_cause(core: Core, out: &mut [u8], at: usize) -> usize
    requires { at + 60 ≤ length out.old }
    ensures { PutsWithin 60 out.old at (cause_of core) result out.new }
{
    if core.status == 0 {
        return put_unfinished(core.age, out, at);
    }
    if core.status == 1 {
        return put_bytes(out, at, b"halted");
    }
    put_status(b"fault ", core.status, b", ", out, at)
}

// Why a run stopped whose machine is running still.
fn put_unfinished(age: u64, out: &mut [u8], at: usize) -> usize
    requires { at + 60 ≤ length out.old }
    ensures { PutsWithin 60 out.old at (unfinished age) result out.new }
{
    if age == CYCLE_LIMIT {
        return put_bytes(out, at, b"at the cycle limit");
    }
    put_bytes(out, at, b"the budget is spent")
}

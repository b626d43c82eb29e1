// The scalars of a record, a line each. (The status and PC have functions of their own: their lines have another form, which their contracts name.)
// Stays (1, 2, 4): no heap: a line goes to a place of a lent buffer, whose bytes the contract states; status and PC have lines of another form.
ghost use Rattle.std.specs.Prelude.{◌≡◌, [], ◌∷◌, ◌++◌, ◌+◌, ◌≤◌, length};
ghost use Rattle.text.specs.Lines.{LF as lf, unlines};
ghost use Rattle.text.specs.Place.{put, PutsWithin};
ghost use Rattle.outputs.specs.RecordText.{status_line, pc_line, drive_lines, core_lines};

use crate::numbers::put_number_line;
use crate::pc::put_pc;
use crate::status::put_status;
use devices::Drive;
use machine::Core;
use text::lines::LF;
use text::place::put_bytes;

// Puts status, handler, PC, age and the disk's part at the front and returns the place after them.
pub fn put_core_lines(core: Core, out: &mut [u8]) -> usize
    requires { 204 ≤ length out.old }
    ensures { (out.new ≡ put out.old 0 (unlines (core_lines core))) × (result ≡ length (unlines (core_lines core))) × (result ≤ 204) }
{
    let drive = core.drive;
    let handler_at = put_status_line(core.status, out);
    let pc_at = put_number_line(b"handler ", core.handler as u64, out, handler_at);
    let age_at = put_pc_line(core.pc, out, pc_at);
    let left_at = put_number_line(b"age ", core.age, out, age_at);
    put_drive_lines(drive, out, left_at)
}

// Puts the status and its meaning at the front and returns the place after them.
fn put_status_line(status: u32, out: &mut [u8]) -> usize
    requires { 61 ≤ length out.old }
    ensures { (out.new ≡ put out.old 0 (status_line status ++ (lf ∷ []))) × (result ≡ length (status_line status ++ (lf ∷ []))) × (result ≤ 61) }
{
    let end = put_status(b"status ", status, b" ", out, 0);
    out[end] = LF;
    end + 1
}

// Puts PC at a place and returns the place after it.
fn put_pc_line(pc: u32, out: &mut [u8], at: usize) -> usize
    requires { at + 7 ≤ length out.old }
    ensures { (out.new ≡ put out.old at (pc_line pc ++ (lf ∷ []))) × (result ≡ at + length (pc_line pc ++ (lf ∷ []))) × (result ≡ at + 7) }
{
    let digits_at = put_bytes(out, at, b"pc ");
    let end = put_pc(out, digits_at, pc);
    out[end] = LF;
    end + 1
}

// Puts the disk's part at a place, left, sector and buffer, and returns the place after it.
fn put_drive_lines(d: Drive, out: &mut [u8], at: usize) -> usize
    requires { at + 82 ≤ length out.old }
    ensures { PutsWithin 82 out.old at (unlines (drive_lines d)) result out.new }
{
    let sector_at = put_number_line(b"left ", d.left as u64, out, at);
    let buffer_at = put_number_line(b"sector ", d.sector as u64, out, sector_at);
    put_number_line(b"buffer ", d.buffer as u64, out, buffer_at)
}

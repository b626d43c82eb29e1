// A record by its fields, a line each.
// Stays (4): no heap: the text goes to the front of a lent buffer, whose bytes the contract states.
ghost use Rattle.std.specs.Prelude.{◌≡◌, ◌≤◌, length};
ghost use Rattle.text.specs.Place.{put};
ghost use Rattle.console.specs.Counts.{IsPrefixLen};
ghost use Rattle.outputs.specs.RecordText.{record_text};

use crate::core_lines::put_core_lines;
use crate::register_lines::{put_io_lines, put_register_lines};
use machine::Record;
use text::hex_words::HexTable;

// Puts the fields of a record by their names at the front and returns how many bytes they have.
pub fn put_record(r: Record, out: &mut [u8]) -> usize
    requires { 832 ≤ length out.old }
    ensures { (out.new ≡ put out.old 0 (record_text r)) × (result ≡ length (record_text r)) × (result ≤ 832) × IsPrefixLen result out.new }
{
    let regs = r.regs;
    let io = r.io;
    let table = HexTable::new();
    let registers_at = put_core_lines(r.core, out);
    let io_at = put_register_lines(&regs, out, registers_at, &table);
    put_io_lines(&io, out, io_at, &table)
}

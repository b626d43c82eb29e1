// The record at the front of a text.
// Stays (1, 5, 7): the type of a record is an enum, made of its byte here alone.
ghost use Rattle.std.specs.Prelude.{◌≡◌, ◌≤◌, length};
ghost use Rattle.intel_hex.specs.Steps.{byte_limit, HeadRead, RecordFound, record_end, kind_of};

use crate::pairs::{pair_at, put_pairs};
use text::digits::DigitTable;
use text::lines::ends_line;

// The bytes of a record's line without data: `:`, count, address, type and checksum.
const SHORTEST: usize = 11;

// Those before the data.
const HEAD: usize = 9;

// Every byte that a record can name lies below this place: 255 bytes from the last address on, in whole words.
pub const BYTES: usize = 65_792;

// The type of a record: 00, 01, or another.
#[derive(Clone, Copy, PartialEq, Eq)]
pub enum Kind {
    Data,
    End,
    Other,
}

// What stands before a record's data, and the sum of its bytes.
#[derive(Clone, Copy)]
pub struct Head {
    pub count: usize,
    pub address: usize,
    pub kind: Kind,
    pub sum: u64,
}

// A record that was found at the front of a text: where its line ends, and what it says.
#[derive(Clone, Copy)]
pub struct Found {
    pub end: usize,
    pub count: usize,
    pub address: usize,
    pub kind: Kind,
}

// Looks for a record on the first line of a text, and puts its data into bytes at its address. They may be changed where there is none.
pub fn find_record(text: &[u8], bytes: &mut [u8; BYTES], values: &DigitTable) -> Option<Found>
    requires { length bytes.old ≡ byte_limit }
    ensures { RecordFound text.now bytes.old result bytes.new }
{
    if text.len() < SHORTEST {
        return None;
    }
    let head = head_of(text, values)?;
    let stop = 2 * head.count + SHORTEST;
    if text.len() < stop {
        return None;
    }
    let data = put_pairs(&text[HEAD..stop - 2], bytes, head.address, values);
    let last = pair_at(text, stop - 2, values);
    if !(data.good & last.good & ((head.sum + data.sum + last.sum) % 256 == 0)) {
        return None;
    }
    let end = record_end(text, stop)?;
    Some(Found {
        end,
        count: head.count,
        address: head.address,
        kind: head.kind,
    })
}

// What stands before the data of a record, where it is `:` and digits.
fn head_of(text: &[u8], values: &DigitTable) -> Option<Head>
    requires { 9 ≤ length text.now }
    ensures { HeadRead text.now result }
{
    let count = pair_at(text, 1, values);
    let high = pair_at(text, 3, values);
    let low = pair_at(text, 5, values);
    let kind = pair_at(text, 7, values);
    if !((text[0] == b':') & count.good & high.good & low.good & kind.good) {
        return None;
    }
    Some(Head {
        count: count.sum as usize,
        address: (high.sum * 256 + low.sum) as usize,
        kind: kind_of(kind.sum),
        sum: count.sum + high.sum + low.sum + kind.sum,
    })
}

// The type that a byte stands for.
fn kind_of(byte: u64) -> Kind
    ensures { result ≡ kind_of byte }
{
    match byte {
        0 => Kind::Data,
        1 => Kind::End,
        _ => Kind::Other,
    }
}

// Where the line ends whose record ends at this place, if it does: there, or after one CR.
fn record_end(text: &[u8], stop: usize) -> Option<usize>
    requires { stop ≤ length text.now }
    ensures { result ≡ record_end text.now stop }
{
    if ends_line(text, stop) {
        return Some(stop);
    }
    if text[stop] == b'\r' && ends_line(text, stop + 1) {
        return Some(stop + 1);
    }
    None
}

// Return trips: what is written is read back, and takes its place.
// Stays (2, 4, 5): a sector's words take its place; the sector is the file's.
ghost use Rattle.std.specs.Prelude.{◌≡◌, ◌+◌, ◌*◌, ◌≤◌, length};
ghost use Rattle.text.specs.Place.{put};
ghost use Rattle.saved.specs.Calls.{fresh_record};
ghost use Rattle.worked_examples.specs.StopAndResume.{RecordReturns, SectorReturns, SectorPlaced};

use crate::RecordTrip;
use files::{read_disk, write_disk};
use machine::Record;
use saved::{fresh_record, load, save};
use text::Outcome;
use text::outcomes::{Refusal, accepted};

// The words of a sector.
const SECTOR: usize = 128;

// Saves a record and loads what was saved.
pub fn save_and_load(r: Record, bytes: &mut [u8]) -> RecordTrip
    ensures { RecordReturns r bytes.old result bytes.new }
{
    if let Err(error) = save(r, bytes) {
        return refused_trip(r, error.outcome());
    }
    match load(bytes) {
        Ok(read) => RecordTrip {
            state: read,
            read,
            outcome: accepted(0),
        },
        Err(error) => refused_trip(r, error.outcome()),
    }
}

// A return trip that was refused: the record to go on with is the old one.
fn refused_trip(state: Record, outcome: Outcome) -> RecordTrip
    ensures { result ≡ record { state = state; read = fresh_record; outcome = outcome } }
{
    RecordTrip {
        state,
        read: fresh_record(),
        outcome,
    }
}

// Writes a sector of the disk as text and reads that text into words, which take the sector's place.
pub fn write_and_read(
    disk: &mut [u32],
    sector: usize,
    text: &mut [u8],
    words: &mut [u32],
) -> Outcome
    requires { length words.old ≡ 128 }
    ensures { SectorReturns disk.old sector text.old words.old result disk.new text.new words.new }
{
    match write_disk(disk, sector, 1, text) {
        Ok(count) => read_and_place(disk, sector, &text[..count], words),
        Err(error) => error.outcome(),
    }
}

// Reads the text of a sector into words, which take the sector's place.
fn read_and_place(disk: &mut [u32], sector: usize, text: &[u8], words: &mut [u32]) -> Outcome
    requires { (length disk.old ≡ 16384) × (sector + 1 ≤ 128) × (length words.old ≡ 128) }
    ensures { SectorPlaced disk.old sector text.now words.old result disk.new words.new }
{
    if let Err(error) = read_disk(text, words) {
        return error.outcome();
    }
    place_sector(disk, sector, words);
    accepted(0)
}

// Puts words in the place of a sector.
fn place_sector(disk: &mut [u32], sector: usize, words: &[u32])
    requires { (length disk.old ≡ 16384) × (sector + 1 ≤ 128) × (length words.now ≡ 128) }
    ensures { disk.new ≡ put disk.old (128 * sector) words.now }
{
    let start = SECTOR * sector;
    let end = start + SECTOR;
    disk[start..end].copy_from_slice(words);
}

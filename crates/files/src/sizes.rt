// The lengths of the memories and of their files, and which parts of the disk can be read and written.
// Stays (2): the sizes of document 01, of which other crates speak by their own definitions.
ghost use Rattle.std.specs.Prelude.{◌≡◌};
ghost use Rattle.files.specs.Sizes.{is_part_length, is_disk_part};

// The memories: words of the image and of the data memory, bytes of the frame, sectors of the disk and the words of each.
pub const IMAGE_WORDS: usize = 4096;

pub const DATA_WORDS: usize = 4096;

pub const FRAME_BYTES: usize = 65536;

pub const SECTOR_WORDS: usize = 128;

pub const DISK_SECTORS: usize = 128;

pub const DISK_WORDS: usize = DISK_SECTORS * SECTOR_WORDS;

// Hexadecimal digits of a word in its file.
pub const IMAGE_DIGITS: usize = 12;

pub const WORD_DIGITS: usize = 8;

pub const FRAME_DIGITS: usize = 2;

// Bytes of a sector's text: its words, each with an LF.
pub const SECTOR_TEXT: usize = SECTOR_WORDS * (WORD_DIGITS + 1);

// The cycle limit: cycles of the irq2 file lie below it.
pub const CYCLE_LIMIT: u64 = 0xFF_FFFF_FFFF;

// Whether so many words are whole sectors of the disk, at least one and no more than it has.
pub fn is_part(words: usize) -> bool
    ensures { result ≡ is_part_length words }
{
    if words % SECTOR_WORDS != 0 {
        return false;
    }
    if words < SECTOR_WORDS {
        return false;
    }
    words <= DISK_WORDS
}

// Whether a memory of so many words is the disk, and has these sectors, at least one.
pub fn is_part_of(words: usize, first: usize, sectors: usize) -> bool
    ensures { result ≡ is_disk_part words first sectors }
{
    if words != DISK_WORDS {
        return false;
    }
    if sectors == 0 {
        return false;
    }
    if DISK_SECTORS < sectors {
        return false;
    }
    first <= DISK_SECTORS - sectors
}

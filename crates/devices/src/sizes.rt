// The disk's sizes and times.
// Stays (2): the sector of these devices and that of the files are said each where their definitions stand.

// The words of a sector, and the number of its last.
pub const SECTOR: usize = 128;

pub const LAST_WORD: usize = 127;

// The number of the last sector.
pub const LAST_SECTOR: u32 = 127;

// The last place of the data memory where a sector has room.
pub const LAST_BUFFER: u32 = 3968;

// The cycles of a command, and of each of its words.
pub const COMMAND_CYCLES: u32 = 1024;

pub const WORD_CYCLES: u32 = 8;

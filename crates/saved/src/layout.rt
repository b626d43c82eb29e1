// The layout of a saved record: edition 2.
// Stays (2, 6): the two editions are two tables, as document 02 has them, beside the definitions of their widths.
pub const EDITION: u64 = 2;

// How many bytes a saved record has.
pub const BYTES: usize = 94;

// The places of the fields of R3 and of I/O register 0, and of the bits at the end: the registers and then the I/O registers stand between them.
pub const FIRST_REGISTER: usize = 8;

pub const FIRST_IO: usize = 21;

pub const LAST: usize = 44;

// The bits of each field.
pub const WIDTHS: [u8; 45] = [
    // edition, status, flag, PC, age, left, sector, buffer
    8, 3, 1, 12, 40, 11, 7, 12,
    // R3 to R15
    32, 32, 32, 32, 32, 32, 32, 32, 32, 32, 32, 32, 32,
    // I/O 0 to 5: enables and statuses
    1, 1, 1, 1, 1, 1,
    // 6 irqhandler, 7 irqreturn
    12, 12,
    // 8 clks, 9 leds, 10 display7seg
    32, 32, 32,
    // 11 timerenable, 12 timercurrent, 13 timermax
    1, 32, 32,
    // 14 diskcmd, 15 disksector, 16 diskbuffer, 17 diskstatus
    2, 7, 12, 1,
    // 18 and 19: no registers
    0, 0,
    // 20 monitoraddr, 21 monitordata, 22 monitorcmd
    16, 8, 0,
    // the five zero bits
    5,
];

// Edition 1, which is read only.
pub const EDITION_ONE: u64 = 1;

pub const BYTES_ONE: usize = 91;

pub const FIRST_REGISTER_ONE: usize = 6;

pub const WIDTHS_ONE: [u8; 43] = [
    // edition, status, flag, PC, age, left
    8, 3, 1, 12, 40, 11,
    // R3 to R15
    32, 32, 32, 32, 32, 32, 32, 32, 32, 32, 32, 32, 32,
    // I/O 0 to 5: enables and statuses
    1, 1, 1, 1, 1, 1,
    // 6 irqhandler, 7 irqreturn
    12, 12,
    // 8 clks, 9 leds, 10 display7seg
    32, 32, 32,
    // 11 timerenable, 12 timercurrent, 13 timermax
    1, 32, 32,
    // 14 diskcmd, 15 disksector, 16 diskbuffer, 17 diskstatus
    2, 7, 12, 1,
    // 18 and 19: no registers
    0, 0,
    // 20 monitoraddr, 21 monitordata, 22 monitorcmd
    16, 8, 0,
    // no bits at the end
    0,
];

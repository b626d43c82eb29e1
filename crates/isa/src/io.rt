// The I/O registers: their numbers, which are listed, and how many bits each has.
// Stays (1, 2, 4, 6, 7): a program computes a register's number, so any number is asked; two matches, since one is over 40 lines; the lengths are asked where no text is put.
ghost use Rattle.std.specs.Prelude.{◌≡◌, ◌%◌, ◌^◌, ◌<◌, ◌≤◌, length};
ghost use Rattle.isa.specs.Registers.{is_listed, io_bits, io_name};

pub use devices::numbers::{
    CLKS, DISKBUFFER, DISKCMD, DISKSECTOR, DISKSTATUS, IRQ0ENABLE, IRQ0STATUS, IRQ1ENABLE,
    IRQ1STATUS, IRQ2ENABLE, IRQ2STATUS, IRQHANDLER, IRQRETURN, LEDS, TIMERCURRENT, TIMERENABLE,
    TIMERMAX,
};

pub const DISPLAY7SEG: usize = 10;

pub const MONITORADDR: usize = 20;

pub const MONITORDATA: usize = 21;

// Whether a number is listed.
pub fn is_listed(n: u32) -> bool
    ensures { result ≡ is_listed n }
{
    match n {
        0..=17 => true,
        20..=22 => true,
        _ => false,
    }
}

// The low bits of a value, as many as a register has.
pub fn low_bits(n: u32, x: u32) -> u32
    ensures { result ≡ x % 2 ^ io_bits n }
{
    match n {
        0..=5 => x % 2,
        6..=7 => x % 4096,
        8..=10 => x,
        11..=17 => low_bits_in_device(n, x),
        20..=22 => low_bits_in_monitor(n, x),
        _ => 0,
    }
}

// The same of the timer's and the disk's registers, 11 to 17.
fn low_bits_in_device(n: u32, x: u32) -> u32
    requires { (11 ≤ n) × (n < 18) }
    ensures { result ≡ x % 2 ^ io_bits n }
{
    match n {
        11 => x % 2,
        12 => x,
        13 => x,
        14 => x % 4,
        15 => x % 128,
        16 => x % 4096,
        _ => x % 2,
    }
}

// The same of the monitor's registers, 20 to 22.
fn low_bits_in_monitor(n: u32, x: u32) -> u32
    requires { (20 ≤ n) × (n < 23) }
    ensures { result ≡ x % 2 ^ io_bits n }
{
    match n {
        20 => x % 65536,
        21 => x % 256,
        _ => x % 2,
    }
}

// How many bytes each register's name has, by its number; 18 and 19 have none.
const NAME_LENGTHS: [u8; 23] = [
    10, 10, 10, 10, 10, 10, 10, 9, 4, 4, 11, 11, 12, 8, 7, 10, 10, 10, 0, 0, 11, 11, 10,
];

// How many bytes a register's name has; 0 where the number is not listed.
pub fn io_name_length(n: u32) -> usize
    ensures { result ≡ length (io_name n) }
{
    if n < 23 {
        NAME_LENGTHS[n as usize] as usize
    } else {
        0
    }
}

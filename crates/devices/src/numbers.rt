// The numbers of the I/O registers 0 to 9 and 11 to 17, the same in every computer that has these devices.
pub const IRQ0ENABLE: usize = 0;

pub const IRQ1ENABLE: usize = 1;

pub const IRQ2ENABLE: usize = 2;

pub const IRQ0STATUS: usize = 3;

pub const IRQ1STATUS: usize = 4;

pub const IRQ2STATUS: usize = 5;

pub const IRQHANDLER: usize = 6;

pub const IRQRETURN: usize = 7;

pub const CLKS: usize = 8;

pub const LEDS: usize = 9;

pub const TIMERENABLE: usize = 11;

pub const TIMERCURRENT: usize = 12;

pub const TIMERMAX: usize = 13;

pub const DISKCMD: usize = 14;

pub const DISKSECTOR: usize = 15;

pub const DISKBUFFER: usize = 16;

pub const DISKSTATUS: usize = 17;

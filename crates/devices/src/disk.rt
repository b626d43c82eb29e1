// The disk's step of a cycle.
// Stays (1, 4, 5, 7): a drive is copied field by field: copied whole it cost a cycle 21 instructions for 5 (docs/BENCHMARKS.md); diskcmd is a register's number; the
// memories are lent one by one by the C interface.
ghost use Rattle.std.specs.Prelude.{◌≡◌, ◌+◌, ◌<◌, ◌≤◌, length, slice_index, slice_set};
ghost use Rattle.devices.specs.Numbers.{device_registers};
ghost use Rattle.devices.specs.Bus.{bus};
ghost use Rattle.devices.specs.Disk.{memory_moved, disk_moved, freed, served, disk_stepped, HasSector};

use crate::Drive;
use crate::numbers::{DISKCMD, DISKSTATUS, IRQ1STATUS};
use crate::sizes::{LAST_WORD, SECTOR, WORD_CYCLES};

// The disk's step of a cycle; returns its part of the record. `began` are its cycles to go when the cycle began.
pub fn step_disk(
    began: u32,
    d: Drive,
    io: &mut [u32],
    memory: &mut [u32],
    disk: &mut [u32],
) -> Drive
    requires { (began ≤ d.left) × HasSector d io.old memory.old disk.old }
    ensures { bus result io.new memory.new disk.new ≡ disk_stepped began (bus d io.old memory.old disk.old) }
{
    if began == 0 {
        return Drive {
            left: d.left,
            sector: d.sector,
            buffer: d.buffer,
        };
    }
    serve(d, io, memory, disk)
}

// A cycle of a busy disk: every eighth moves a word, the last frees the disk.
fn serve(d: Drive, io: &mut [u32], memory: &mut [u32], disk: &mut [u32]) -> Drive
    requires { (0 < d.left) × HasSector d io.old memory.old disk.old }
    ensures { bus result io.new memory.new disk.new ≡ served (bus d io.old memory.old disk.old) }
{
    let left = d.left - 1;
    if left % WORD_CYCLES != 0 {
        return Drive {
            left,
            sector: d.sector,
            buffer: d.buffer,
        };
    }
    let k = LAST_WORD - (left / WORD_CYCLES) as usize;
    let buffer = d.buffer as usize;
    let sector = SECTOR * d.sector as usize;
    move_between(io[DISKCMD], k, buffer, sector, memory, disk);
    if left == 0 {
        free_disk(io);
        return Drive {
            left: 0,
            sector: 0,
            buffer: 0,
        };
    }
    Drive {
        left,
        sector: d.sector,
        buffer: d.buffer,
    }
}

// Word k moves between the data memory from `buffer` up and the disk from `sector` up.
fn move_between(
    command: u32,
    k: usize,
    buffer: usize,
    sector: usize,
    memory: &mut [u32],
    disk: &mut [u32],
)
    requires { (k < 128) × (buffer + 128 ≤ length memory.old) × (sector + 128 ≤ length disk.old) }
    ensures { (memory.new ≡ memory_moved command (buffer + k) (sector + k) memory.old disk.old) × (disk.new ≡ disk_moved command (buffer + k) (sector + k) memory.old disk.old) }
{
    if command == 1 {
        move_word(
            k,
            &mut memory[buffer..buffer + SECTOR],
            &disk[sector..sector + SECTOR],
        );
        return;
    }
    move_word(
        k,
        &mut disk[sector..sector + SECTOR],
        &memory[buffer..buffer + SECTOR],
    );
}

// Word k of a sector.
fn move_word(k: usize, target: &mut [u32], source: &[u32])
    requires { (k < length target.old) × (k < length source.now) }
    ensures { target.new ≡ slice_set target.old k (slice_index source.now k) }
{
    target[k] = source[k];
}

// The disk gets free and asks for its interrupt.
fn free_disk(io: &mut [u32])
    requires { device_registers ≤ length io.old }
    ensures { io.new ≡ freed io.old }
{
    io[DISKCMD] = 0;
    io[DISKSTATUS] = 0;
    io[IRQ1STATUS] = 1;
}

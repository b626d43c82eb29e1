// Which drives are sound.
// Stays (1, 5): any three numbers are asked, unsound ones too (question 13), so no type can rule them out.
ghost use Rattle.std.specs.Prelude.{◌≡◌};
ghost use Rattle.devices.specs.Command.{is_read_or_write};
ghost use Rattle.devices.specs.Soundness.{is_sound_free, is_sound_busy, is_sound_drive};

use crate::Drive;
use crate::sizes::{COMMAND_CYCLES, LAST_BUFFER, LAST_SECTOR};

// Whether the disk's part of a record is sound beside diskstatus and diskcmd.
pub fn is_sound_drive(d: Drive, status: u32, command: u32) -> bool
    ensures { result ≡ is_sound_drive d status command }
{
    if d.left == 0 {
        return is_sound_free(d, status, command);
    }
    is_sound_busy(d, status, command)
}

fn is_sound_free(d: Drive, status: u32, command: u32) -> bool
    ensures { result ≡ is_sound_free d status command }
{
    status == 0 && command == 0 && d.sector == 0 && d.buffer == 0
}

fn is_sound_busy(d: Drive, status: u32, command: u32) -> bool
    ensures { result ≡ is_sound_busy d status command }
{
    status == 1
        && is_command(command)
        && d.left <= COMMAND_CYCLES
        && d.sector <= LAST_SECTOR
        && d.buffer <= LAST_BUFFER
}

// Whether a number is that of a disk command: 1, read, or 2, write.
fn is_command(n: u32) -> bool
    ensures { result ≡ is_read_or_write n }
{
    matches!(n, 1..=2)
}

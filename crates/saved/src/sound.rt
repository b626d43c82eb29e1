// Which records are sound.
ghost use Rattle.std.specs.Prelude.{◌≡◌, true};
ghost use Rattle.bitpack.specs.Packed.{fit};
ghost use Rattle.saved.specs.Layout.{widths, fields_of};
ghost use Rattle.saved.specs.Sound.{is_sound};

use crate::fields::fields;
use crate::layout::{FIRST_IO, FIRST_REGISTER, WIDTHS};
use bitpack::all_fit;
use devices::sound::is_sound_drive;
use isa::io::{DISKCMD, DISKSTATUS};
use machine::Record;

// The largest status.
const MOST_STATUS: u32 = 5;

// Whether a record is sound.
pub fn is_sound(r: Record) -> bool
    ensures { result ≡ is_sound r }
{
    let f = fields(r);
    is_sound_with(r, f)
}

// Whether a record with these fields is sound. The fields of R3 to R15 fit their widths, being numbers of 32 bits as they are; those before and after
// them are asked.
pub fn is_sound_with(r: Record, f: [u64; 45]) -> bool
    requires { f ≡ fields_of r }
    ensures { result ≡ is_sound r }
{
    let widths = WIDTHS;
    let scalars = all_fit(&widths[..FIRST_REGISTER], &f[..FIRST_REGISTER]);
    let io = all_fit(&widths[FIRST_IO..], &f[FIRST_IO..]);
    if !(scalars & io) {
        return false;
    }
    is_possible(r)
}

// Whether a record whose fields fit is sound.
pub fn is_possible(r: Record) -> bool
    requires { fit widths (fields_of r) ≡ true }
    ensures { result ≡ is_sound r }
{
    r.core.status <= MOST_STATUS && is_sound_drive(r.core.drive, r.io[DISKSTATUS], r.io[DISKCMD])
}

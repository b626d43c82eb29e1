// Immediates as signed decimals.
// Stays (2, 4): the text goes to a place of a lent buffer (no heap), and is measured without it where the room is asked.
ghost use Rattle.std.specs.Prelude.{◌≡◌, ◌+◌, ◌^◌, ◌≤◌, ◌<◌, nat_abs, length};
ghost use Rattle.std.specs.Int.Signed.{mag};
ghost use Rattle.std.specs.Int.{w32};
ghost use Rattle.std.proofs.Common.{to_z};
ghost use Rattle.text.specs.Place.{Puts};
ghost use Rattle.isa.specs.Word.{sign_extended};
ghost use Rattle.lister.specs.Listing.{signed_decimal};
ghost use Rattle.lister.specs.Sign.{sign_of};

use isa::word::sign_extend;
use text::decimal::{digit_count, put_decimal};
use words::signed::signed;

// The signed number that an immediate of 12 bits is.
fn signed_immediate(immediate: u32) -> i32
    requires { immediate < 2 ^ 12 }
    ensures { result ≡ to_z w32 (sign_extended immediate) }
{
    signed(sign_extend(immediate))
}

// A signed number without its sign.
fn magnitude(z: i32) -> u64
    ensures { result ≡ nat_abs z }
{
    u64::from(z.unsigned_abs())
}

// How many bytes the sign of a number has.
fn sign_length(z: i32) -> usize
    requires { mag z < 2 ^ 12 }
    ensures { (result ≡ length (sign_of z)) × (result ≤ 1) }
{
    if z < 0 { 1 } else { 0 }
}

// Puts the sign of a number at a place and returns the place after it.
fn put_sign(out: &mut [u8], at: usize, z: i32) -> usize
    requires { (mag z < 2 ^ 12) × (at + length (sign_of z) ≤ length out.old) }
    ensures { Puts out.old at (sign_of z) result out.new }
{
    if z < 0 {
        out[at] = b'-';
        return at + 1;
    }
    at
}

// How many bytes an immediate has as a signed decimal; five at most.
pub fn immediate_length(immediate: u32) -> usize
    requires { immediate < 2 ^ 12 }
    ensures { (result ≡ length (signed_decimal immediate)) × (result ≤ 5) }
{
    let z = signed_immediate(immediate);
    sign_length(z) + digit_count(magnitude(z))
}

// Puts an immediate as a signed decimal at a place and returns the place after it.
pub fn put_immediate(out: &mut [u8], at: usize, immediate: u32) -> usize
    requires { (immediate < 2 ^ 12) × (at + length (signed_decimal immediate) ≤ length out.old) }
    ensures { Puts out.old at (signed_decimal immediate) result out.new }
{
    let z = signed_immediate(immediate);
    let digits_at = put_sign(out, at, z);
    put_decimal(out, digits_at, magnitude(z))
}

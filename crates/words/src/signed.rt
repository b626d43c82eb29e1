// Words read as signed numbers.
// Stays (4): each has the definition as its contract, which the laws of the instruction set cite.
ghost use Rattle.std.specs.Prelude.{◌≡◌, ◌^◌, ◌<◌};
ghost use Rattle.std.specs.Int.Signed.{shr_z};
ghost use Rattle.std.specs.Int.{w32};
ghost use Rattle.std.proofs.Common.{to_z, of_z};

// The signed number that a word is.
pub fn signed(x: u32) -> i32
    ensures { result ≡ to_z w32 x }
{
    x.cast_signed()
}

// The word that a signed number is.
pub fn unsigned(z: i32) -> u32
    ensures { result ≡ of_z w32 z }
{
    z.cast_unsigned()
}

// A word moved right by n, its sign copied.
pub fn shift_signed(x: u32, n: u32) -> u32
    requires { n < 32 }
    ensures { result ≡ of_z w32 (shr_z (to_z w32 x) (2 ^ n)) }
{
    unsigned(signed(x) >> n)
}

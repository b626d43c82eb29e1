// Arithmetic that wraps at 2^32.
// Stays (4): each has the sentence of its definition as its contract, which the laws of the instruction set cite.
ghost use Rattle.std.specs.Prelude.{◌≡◌};
ghost use Rattle.words.specs.Words.{plus as plus_of, minus as minus_of, times as times_of};

// x + y.
pub fn plus(x: u32, y: u32) -> u32
    ensures { result ≡ plus_of x y }
{
    x.wrapping_add(y)
}

// x - y.
pub fn minus(x: u32, y: u32) -> u32
    ensures { result ≡ minus_of x y }
{
    x.wrapping_sub(y)
}

// x × y.
pub fn times(x: u32, y: u32) -> u32
    ensures { result ≡ times_of x y }
{
    (u64::from(x) * u64::from(y) % 0x1_0000_0000) as u32
}

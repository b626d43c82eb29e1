// Shifts and masks of 64 bits.
// Stays (4): the contract says which bits stay, and `as` alone asks that none is lost.
ghost use Rattle.std.specs.Prelude.{◌≡◌, ◌+◌, ◌*◌, ◌%◌, ◌^◌, ◌<◌};

// The k low bits.
pub fn low(x: u64, k: u64) -> u64
    requires { k < 64 }
    ensures { result ≡ x % 2 ^ k }
{
    x & ((1 << k) - 1)
}

// The bits of a, and below them the k bits of v; the highest go where 64 bits do not hold them all.
pub fn append(a: u64, k: u64, v: u64) -> u64
    requires { (k < 64) × (v < 2 ^ k) }
    ensures { result ≡ (a * 2 ^ k + v) % 2 ^ 64 }
{
    (a << k) | v
}

// The low byte.
pub fn low_byte(x: u64) -> u8
    ensures { result ≡ x % 2 ^ 8 }
{
    (x % 256) as u8
}

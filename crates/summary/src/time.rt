// Cycles as time: 1,024 are a second.
ghost use Rattle.std.specs.Prelude.{◌≡◌};
ghost use Rattle.summary.specs.Milliseconds.{milliseconds as ms};

// The milliseconds of so many cycles, 125 for each 128 of them, rounded to nearest, halves up.
pub fn milliseconds(age: u64) -> u64
    ensures { result ≡ ms age }
{
    age / 128 * 125 + (age % 128 * 125 + 64) / 128
}

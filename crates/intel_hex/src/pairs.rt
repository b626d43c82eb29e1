// Pairs of hexadecimal digits read as bytes.
// Stays (1): whether pairs are digits is told beside their sum, without a branch a byte; with an Option each pair asks.
ghost use Rattle.std.specs.Prelude.{◌≡◌, map, ◌+◌, ◌*◌, ◌/◌, ◌%◌, ◌≤◌, ◌<◌, length};
ghost use Rattle.text.specs.Numerals.{all_digits};
ghost use Rattle.text.specs.Place.{put};
ghost use Rattle.intel_hex.specs.Record.{pair_values, total};
ghost use Rattle.intel_hex.specs.Steps.{is_pair, pair_value};

use text::digits::DigitTable;

// Whether bytes are digits, and the sum of the bytes that their pairs stand for. No Option: a test of each pair would send its loop another way, so both
// are computed without a branch and asked once a record.
#[derive(Clone, Copy)]
pub struct Pairs {
    pub good: bool,
    pub sum: u64,
}

// The two bytes at a place: whether they are digits, and the byte that they stand for.
pub fn pair_at(s: &[u8], at: usize, values: &DigitTable) -> Pairs
    requires { at + 2 ≤ length s.now }
    ensures { (result.good ≡ is_pair s.now at) × (result.sum ≡ pair_value s.now at) × (result.sum ≤ 272) }
{
    let high = values.value(s[at]);
    let low = values.value(s[at + 1]);
    Pairs {
        good: (high < 16) & (low < 16),
        sum: high * 16 + low,
    }
}

// Puts the bytes of pairs at a place; where a pair is not two digits its byte means nothing.
pub fn put_pairs(pairs: &[u8], bytes: &mut [u8], at: usize, values: &DigitTable) -> Pairs
    requires whole { length pairs.now % 2 ≡ 0 }
    requires few { length pairs.now < 512 }
    requires room { at + length pairs.now / 2 ≤ length bytes.old }
    ensures { (result.good ≡ all_digits 16 pairs.now) × (result.sum ≡ total (pair_values pairs.now)) × (result.sum ≤ 136 * length pairs.now) × (bytes.new ≡ put bytes.old at (map (λ b. b % 256) (pair_values pairs.now))) }
{
    let mut good = true;
    let mut sum = 0;
    for (k, two) in pairs.chunks_exact(2).enumerate() {
        let pair = pair_at(two, 0, values);
        good = good & pair.good;
        sum += pair.sum;
        bytes[at + k] = (pair.sum % 256) as u8;
    }
    Pairs { good, sum }
}

// Values that fit their widths.
// Stays (2, 6): many values are tested at once, with no end at the first (docs/BENCHMARKS.md, faster saving); bench_saved has the test that ends.
ghost use Rattle.std.specs.Prelude.{◌≡◌, ◌/◌, ◌^◌};
ghost use Rattle.bitpack.specs.Packed.{fit};

// Whether there are as many values as widths and each fits its width. All are looked at before it answers, so that many can be tested at once.
pub fn all_fit(widths: &[u8], values: &[u64]) -> bool
    ensures { result ≡ fit widths.now values.now }
{
    if widths.len() != values.len() {
        return false;
    }
    let mut over: u64 = 0;
    for (i, width) in widths.iter().enumerate() {
        over = over | bits_above(u64::from(*width), values[i]);
    }
    over == 0
}

// The bits of v above its w low ones.
fn bits_above(w: u64, v: u64) -> u64
    ensures { result ≡ v / 2 ^ w }
{
    if w < 64 { v >> w } else { 0 }
}

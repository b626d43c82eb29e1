// Bytes compared.
// Stays (2, 4, 6): the contracts say it by the definition `same`, which theorems of symbols and source speak of.
ghost use Rattle.std.specs.Prelude.{◌≡◌, length, take};
ghost use Rattle.text.specs.Same.{same};

// Whether bytes begin with these.
pub fn begins_with(t: &[u8], front: &[u8]) -> bool
    ensures { result ≡ same (take (length front.now) t.now) front.now }
{
    t.starts_with(front)
}

// Whether two parts have the same bytes.
pub fn are_same(t: &[u8], u: &[u8]) -> bool
    ensures { result ≡ same t.now u.now }
{
    t == u
}

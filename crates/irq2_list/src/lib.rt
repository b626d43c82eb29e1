// The irq2 list: whether it rises, the place that belongs to an age, and what a run waits for.
// Stays (1, 4, 5, 6): a cycle that never comes is a number, since with an Option a cycle of a run took 3 to 7% longer; the list is lent, so its place stands beside it.
#![tactic(auto)]

ghost use Rattle.std.specs.Prelude.{◌≡◌, true, cond, ◌+◌, ◌^◌, ◌<◌, eqb};
ghost use Rattle.files.specs.Irq2File.{rising};
ghost use Rattle.irq2_list.specs.Places.{PlaceOf, awaited_at};

// The entry of the irq2 list that a run waits for: its place, and the cycle that stands there, or one that never comes.
#[derive(Clone, Copy)]
pub struct Awaited {
    pub place: usize,
    pub cycle: u64,
}

// A cycle that never comes; no Option, with which a cycle of a run took 3 to 7% longer.
const NEVER: u64 = 0xFFFF_FFFF_FFFF_FFFF;

// Whether a list of cycles is strictly rising.
pub fn is_rising(cycles: &[u64]) -> bool
    ensures { result ≡ rising cycles.now }
{
    cycles.is_sorted_by(|one, next| *one < *next)
}

// The place of the first cycle in a rising list that is not below c.
pub fn place_of(cycles: &[u64], c: u64) -> usize
    requires { rising cycles.now ≡ true }
    ensures { PlaceOf c result cycles.now }
{
    cycles.partition_point(|cycle| *cycle < c)
}

// What a run that begins at the age c waits for.
pub fn first_awaited(cycles: &[u64], c: u64) -> Awaited
    requires { rising cycles.now ≡ true }
    ensures { PlaceOf c result.place cycles.now × (result.cycle ≡ awaited_at result.place cycles.now) }
{
    awaited_at(cycles, place_of(cycles, c))
}

// What is waited for at a place.
fn awaited_at(cycles: &[u64], p: usize) -> Awaited
    ensures { (result.place ≡ p) × (result.cycle ≡ awaited_at result.place cycles.now) }
{
    Awaited {
        place: p,
        cycle: cycles.get(p).copied().unwrap_or(NEVER),
    }
}

// Whether c is the cycle that is waited for.
pub fn is_awaited(a: Awaited, c: u64) -> bool
    ensures { result ≡ eqb c a.cycle }
{
    c == a.cycle
}

// What is waited for after a cycle: the next entry where the list has been hit.
pub fn next_awaited(cycles: &[u64], a: Awaited, hit: bool) -> Awaited
    requires { (a.place + 1 < 2 ^ 64) × (a.cycle ≡ awaited_at a.place cycles.now) }
    ensures { (result.place ≡ cond hit (a.place + 1) a.place) × (result.cycle ≡ awaited_at result.place cycles.now) }
{
    if hit {
        return awaited_at(cycles, a.place + 1);
    }
    a
}

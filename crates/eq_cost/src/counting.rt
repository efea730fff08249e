//! Counts up to the most that is told.

ghost use Rattle.std.specs.Prelude.{◌≡◌, ◌+◌, ◌*◌};
ghost use Rattle.eq_cost.specs.Counts.{told};

/// The most that is told.
const MOST: u64 = 1_000_000_000;

pub fn sum(a: u64, b: u64) -> u64
    ensures { result ≡ told (a + b) }
{
    a.saturating_add(b).min(MOST)
}

pub fn product(a: u64, b: u64) -> u64
    ensures { result ≡ told (a * b) }
{
    a.saturating_mul(b).min(MOST)
}

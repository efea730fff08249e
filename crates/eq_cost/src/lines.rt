//! Lines: what something costs in each size, as a slope and a base. Both are counted up to the most that is told.

ghost use Rattle.std.specs.Prelude.{◌≡◌, ◌+◌, ℕ};
ghost use Rattle.eq_cost.specs.Counts.{told};
ghost use Rattle.eq_cost.specs.inner.Lines.{IsLine};

use crate::counting::{product, sum};

/// `slope` for each bit, and `base`.
#[derive(Clone, Copy, Debug, PartialEq, Eq)]
pub struct Line {
    pub slope: u64,
    pub base: u64,
}

/// The same in each size.
pub fn flat(base: u64) -> Line
    ensures { (f : ℕ → ℕ) → ((w : ℕ) → told base ≡ told (f w)) → IsLine f result }
{
    Line { slope: 0, base }
}

/// The two together.
pub fn added(a: Line, b: Line) -> Line
    ensures { (f g : ℕ → ℕ) → IsLine f a → IsLine g b → IsLine (λ w. f w + g w) result }
{
    Line {
        slope: sum(a.slope, b.slope),
        base: sum(a.base, b.base),
    }
}

/// What it is in a size.
pub fn at(line: Line, size: u64) -> u64
    ensures { (f : ℕ → ℕ) (n : ℕ) → IsLine f line → told size ≡ told n → told result ≡ told (f n) }
{
    sum(product(line.slope, size), line.base)
}

//! Partitions, and why pairs have none.

ghost use Rattle.std.specs.Prelude.{◌≡◌};
ghost use Rattle.eq_part.specs.declared.types.PlanErr.TheVariants.{Memory as OutOfMemory};

use eq_base::Items;
use eq_match::Positions;
use eq_names::{BitName, Name};
use std::alloc::AllocError;

/// Pairs that are proved together, under the name that reports have.
#[derive(Debug, Drop)]
pub struct Partition {
    pub name: Name,
    /// In order, at least one.
    pub outputs: Positions,
}

/// In the order of their first outputs.
pub type Partitions = Items<Partition>;

/// Why pairs and groups have no plan.
#[derive(Clone, Copy, Debug, PartialEq, Eq)]
pub enum PlanErr {
    /// There are so many partitions, more than may be.
    TooMany { number: u32 },
    /// Two partitions have one name. The bits are gold's at their first outputs.
    SameName { first: BitName, second: BitName },
    /// Want of memory.
    Memory,
}

impl From<AllocError> for PlanErr {
    ghost from_gives = { λ _ e. e ≡ OutOfMemory };

    fn from(_: AllocError) -> PlanErr {
        PlanErr::Memory
    }
}

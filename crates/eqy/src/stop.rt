//! Why a run ends without a verdict.

ghost use Rattle.eqy.specs.declared.stop.Stop.TheVariants.{Memory as OutOfMemory};
ghost use Rattle.std.specs.Prelude.{◌≡◌};

use crate::refusal::Refusal;
use std::alloc::AllocError;

/// Why a run ends without a verdict.
#[derive(Debug, Drop)]
pub enum Stop {
    /// An input is refused.
    Refused(Refusal),
    /// The store failed.
    Fault,
    /// Memory ran out.
    Memory,
}

impl From<AllocError> for Stop {
    ghost from_gives = { λ _ e. e ≡ OutOfMemory };

    fn from(_: AllocError) -> Stop {
        Stop::Memory
    }
}

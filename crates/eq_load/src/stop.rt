//! Why a design isn't read.

ghost use Rattle.eq_load.specs.declared.stop.Stop.TheVariants.{Memory as OutOfMemory};
ghost use Rattle.std.specs.Prelude.{◌≡◌};

use eq_report::Refusal;
use std::alloc::AllocError;

/// Why a design isn't read.
#[derive(Drop)]
pub enum Stop {
    /// An input is refused.
    Refused(Refusal),
    /// The store failed.
    Fault,
    /// Memory ran out.
    Memory,
}

impl From<AllocError> for Stop {
    ghost from_gives = { λ _ e. e ≡ OutOfMemory };

    fn from(_: AllocError) -> Stop {
        Stop::Memory
    }
}

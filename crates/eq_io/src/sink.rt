//! Where output goes.
ghost use Rattle.std.specs.Prelude.{◌≡◌, ℕ, ◌≤◌, List, Option, ◌++◌, take, OnOk, IsErrOf};
ghost use Rattle.std.specs.Option.{option_map};
ghost use Rattle.eq_io.specs.Faults.{Rose};
ghost use Rattle.eq_io.specs.declared.sink.SinkErr.TheVariants.{Memory};

use std::alloc::{AllocError, AllocFailed, Global};

/// Why a put gave up.
#[derive(Clone, Copy, Debug, PartialEq, Eq)]
pub enum SinkErr {
    /// The sink failed.
    Failed,
    /// Memory ran out.
    Memory,
}

impl From<AllocError> for SinkErr {
    ghost from_gives = { λ _ e. e ≡ Memory };

    fn from(_: AllocError) -> Self {
        SinkErr::Memory
    }
}

impl<T: Drop> From<AllocFailed<T>> for SinkErr {
    ghost from_gives = { λ _ e. e ≡ Memory };

    fn from(_: AllocFailed<T>) -> Self {
        SinkErr::Memory
    }
}

/// Takes output, piece by piece.
pub trait Sink {
    /// The bytes written so far, where the sink tells them.
    ghost written: { Self → Option (List ℕ) };

    /// How often the sink has failed.
    ghost faults: { Self → ℕ };

    /// Adds the piece to the output. A put that failed may have added the front of it.
    fn put(&mut self, alloc: Global, piece: &[u8]) -> Result<(), SinkErr>
        ensures ok { OnOk result
            (written self.new ≡ option_map (λ bytes. bytes ++ piece.now) (written self.old)) }
        ensures failed { IsErrOf result SinkErr.Failed → (n : ℕ)
            × (written self.new ≡ option_map (λ bytes. bytes ++ take n piece.now) (written self.old)) }
        ensures memory { IsErrOf result SinkErr.Memory → written self.new ≡ written self.old }
        ensures later { faults self.old ≤ faults self.new }
        ensures cause { IsErrOf result SinkErr.Failed → Rose (faults self.old) (faults self.new) };
}

//! Where files are read and written.
ghost use Rattle.std.specs.Prelude.{◌≡◌, ℕ, ◌≤◌, List, Option, IfOk, OnOk, IsErrOf, Some};
ghost use Rattle.std.specs.Option.{option_map};
ghost use Rattle.std.specs.FinMap.{get, insert};
ghost use Rattle.eq_io.specs.Faults.{Rose};
ghost use Rattle.eq_io.specs.Files.{Files, Answers, IsWithin, with_file};
ghost use Rattle.eq_io.specs.declared.store.StoreErr.TheVariants.{Memory};

use eq_base::Bytes;
use std::alloc::{AllocError, AllocFailed, Global};

/// Why a read or a write gave up.
#[derive(Clone, Copy, Debug, PartialEq, Eq)]
pub enum StoreErr {
    /// The store failed.
    Failed,
    /// Memory ran out.
    Memory,
}

impl From<AllocError> for StoreErr {
    ghost from_gives = { λ _ e. e ≡ Memory };

    fn from(_: AllocError) -> Self {
        StoreErr::Memory
    }
}

impl<T: Drop> From<AllocFailed<T>> for StoreErr {
    ghost from_gives = { λ _ e. e ≡ Memory };

    fn from(_: AllocFailed<T>) -> Self {
        StoreErr::Memory
    }
}

/// What a read found.
#[derive(Debug, Drop)]
pub enum Got {
    /// Nothing has the name.
    Absent,
    /// There are more bytes than were asked for.
    TooLong,
    /// All the bytes under the name.
    Held(Bytes),
}

/// Holds bytes under names.
pub trait Store {
    /// The bytes under each name, where the store tells them.
    ghost map: { Self → Option Files };

    /// How often the store has failed.
    ghost faults: { Self → ℕ };

    /// The bytes under the name, if they are at most `most`.
    fn read(&mut self, alloc: Global, name: &str, most: u64) -> Result<Got, StoreErr>
        ensures within { IfOk result (IsWithin most) }
        ensures answer { IfOk result (λ got. (files : Files) → map self.old ≡ Some files
            → Answers most (get files name.now) got) }
        ensures kept { map self.new ≡ map self.old }
        ensures later { faults self.old ≤ faults self.new }
        ensures cause { IsErrOf result StoreErr.Failed → Rose (faults self.old) (faults self.new) };

    /// Puts the bytes under the name. A write that failed may have left anything there.
    fn write(&mut self, alloc: Global, name: &str, bytes: &[u8]) -> Result<(), StoreErr>
        ensures ok { OnOk result
            (map self.new ≡ option_map (λ files. insert files name.now bytes.now) (map self.old)) }
        ensures failed { IsErrOf result StoreErr.Failed → (left : Option (List ℕ))
            × (map self.new ≡ option_map (with_file name.now left) (map self.old)) }
        ensures memory { IsErrOf result StoreErr.Memory → map self.new ≡ map self.old }
        ensures later { faults self.old ≤ faults self.new }
        ensures cause { IsErrOf result StoreErr.Failed → Rose (faults self.old) (faults self.new) };
}

//! Why a text has no tokens.

ghost use Rattle.std.specs.Prelude.{◌≡◌};
ghost use Rattle.eq_vlex.specs.declared.fault.LexErr.TheVariants.{Memory as NoMemory};
ghost use Rattle.eq_vlex.specs.declared.fault.Stop.TheVariants.{Memory as Stopped};

use std::alloc::AllocError;

/// What is wrong at a place of the text.
#[derive(Clone, Copy, Debug, PartialEq, Eq)]
pub enum LexKind {
    /// No token begins so.
    BadByte,
    /// A `/*` without its `*/`.
    OpenComment,
    /// A `(*` without its `*)`.
    OpenAttribute,
    /// A number that is no decimal up to 2^31 - 1 and no constant that fits its size.
    BadNumber,
    /// A constant with an x, a z or a `?`.
    XValue,
    /// A constant of more than 128 bits.
    TooWide,
}

/// Why a text has no tokens: its first fault, at the first byte of what is wrong, or want of memory.
#[derive(Clone, Copy, Debug, PartialEq, Eq)]
pub enum LexErr {
    At { at: u32, kind: LexKind },
    Memory,
}

impl From<AllocError> for LexErr {
    ghost from_gives = { λ _ e. e ≡ NoMemory };

    fn from(_: AllocError) -> LexErr {
        LexErr::Memory
    }
}

/// Why a piece of a text was not read.
#[derive(Clone, Copy, Debug, PartialEq, Eq)]
pub enum Stop {
    Fault(LexKind),
    Memory,
}

impl From<AllocError> for Stop {
    ghost from_gives = { λ _ e. e ≡ Stopped };

    fn from(_: AllocError) -> Stop {
        Stop::Memory
    }
}

//! Why a text is no pattern or no template.

ghost use Rattle.std.specs.Prelude.{◌≡◌};
ghost use Rattle.eq_names.specs.declared.fault.PatErr.TheVariants.{Memory as PatternMemory};
ghost use Rattle.eq_names.specs.declared.fault.TplErr.TheVariants.{Memory as TemplateMemory};

use std::alloc::AllocError;

/// Why a text is no pattern: its first fault from the left, or want of memory.
#[derive(Clone, Copy, Debug, PartialEq, Eq)]
pub enum PatErr {
    /// It has no byte.
    Empty,
    /// A `[` without its `]`.
    OpenBracket,
    /// A set with a range `x-y` whose x is above y.
    EmptyRange,
    /// Want of memory.
    Memory,
}

impl From<AllocError> for PatErr {
    ghost from_gives = { λ _ e. e ≡ PatternMemory };

    fn from(_: AllocError) -> PatErr {
        PatErr::Memory
    }
}

/// Why a text is no template: its first fault from the left, or want of memory.
#[derive(Clone, Copy, Debug, PartialEq, Eq)]
pub enum TplErr {
    /// It has no byte.
    Empty,
    /// A `%` before no digit from 1 to 9, no `%` and no `~`.
    BadPercent,
    /// A wild that the pattern doesn't have.
    NoCapture { number: u32 },
    /// Want of memory.
    Memory,
}

impl From<AllocError> for TplErr {
    ghost from_gives = { λ _ e. e ≡ TemplateMemory };

    fn from(_: AllocError) -> TplErr {
        TplErr::Memory
    }
}

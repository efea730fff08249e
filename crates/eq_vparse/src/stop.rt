//! Why a list of tokens has no tree.

use eq_base::Memory;

/// Why tokens have no tree. A place is the number of tokens before it.
#[derive(Clone, Copy, Debug, PartialEq, Eq)]
pub enum ParseErr {
    /// No sentence of the grammar goes on with this token. It is the number of all tokens where they end too early.
    Syntax { token: u32 },
    /// With this token an expression or a target has more than 1,000 counted marks, or with it begins a statement that
    /// stands in more than 200 others.
    TooDeep { token: u32 },
    /// Want of memory.
    Memory,
}

/// What stops the reading of a phrase. A place is the number of tokens from it to the end.
#[derive(Clone, Copy, PartialEq, Eq)]
pub(crate) enum Stop {
    Syntax { left: usize },
    TooDeep { left: usize },
    Memory,
}

impl From<Memory> for Stop {
    ghost use Rattle.std.specs.Prelude.{◌≡◌};
    ghost use Rattle.eq_vparse.specs.declared.stop.Stop.TheVariants as stop;

    ghost from_gives = { λ _ e. e ≡ stop.Memory };

    fn from(_: Memory) -> Stop {
        Stop::Memory
    }
}

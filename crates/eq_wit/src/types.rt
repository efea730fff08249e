//! An evidence: a part, the heads of the tries on it, and what these came to.

ghost use Rattle.eq_wit.specs.Evidence.{MakeEvidence};
ghost use Rattle.eq_wit.specs.inner.EvidenceProp.{MakeEvidence-prop};

use eq_base::{Items, Memory};
use eq_bits::Part;
use eq_induct::Decided;
use eq_names::Name;

/// The name and the limits of a strategy that was tried.
#[derive(Debug, Drop)]
pub struct Head {
    pub name: Name,
    pub depth: u32,
    pub conflicts: u64,
}

pub type Heads = Items<Head>;

/// A part with its tries, each with the head of its strategy.
#[derive(Debug, Drop)]
pub struct Evidence {
    pub part: Part,
    pub heads: Heads,
    pub decided: Decided,
    ghost is_evidence: { MakeEvidence part heads decided } by { MakeEvidence-prop part heads decided },
}

/// What is wrong with a line.
#[derive(Clone, Copy, Debug, PartialEq, Eq)]
pub enum WitKind {
    /// It is the first, and not `eqe 1` with its line feed.
    Head,
    /// Another word, blank or end of line is due, or the words are those of no line that is due.
    Word,
    /// The words are right, and a number isn't.
    Number,
    /// There is none though one is due, or there is one behind the last.
    End,
}

/// Why a text isn't read.
#[derive(Clone, Copy, Debug, PartialEq, Eq)]
pub enum WitErr {
    /// The first line, counted from 1, that no evidence continues with.
    At { line: u32, kind: WitKind },
    Memory,
}

impl From<Memory> for WitErr {
    ghost use Rattle.std.specs.Prelude.{◌≡◌};
    ghost use Rattle.eq_wit.specs.declared.types.WitErr.TheVariants.{Memory as NoMemory};

    ghost from_gives = { λ _ e. e ≡ NoMemory };

    fn from(_: Memory) -> WitErr {
        WitErr::Memory
    }
}

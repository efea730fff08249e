//! The rows of a report.

use eq_base::Items;

/// Why a strategy gave up.
#[derive(Clone, Copy, Debug, PartialEq, Eq)]
pub enum Cause {
    /// It saw nothing up to its depth.
    Depth { strategy: u32, depth: u32 },
    /// It spent its conflicts.
    Conflicts { strategy: u32, conflicts: u64 },
}

/// One for each strategy that applies.
pub type Causes = Items<Cause>;

/// What is known of a partition. The strategy is the number of the one that decided.
#[derive(Debug, Drop)]
pub enum Verdict {
    /// There never is a difference, by induction over so many cycles.
    Proved { k: u32, strategy: u32 },
    /// There is one after so many cycles, and none before.
    Fail { k: u32, strategy: u32 },
    Unknown(Causes),
    /// It wasn't looked at, since another one failed.
    Skipped,
}

/// What a report says of one partition.
#[derive(Debug, Drop)]
pub struct Row {
    /// The partition's number in the plan.
    pub part: u32,
    pub verdict: Verdict,
    /// Whether the verdict was taken over from an earlier run.
    pub kept: bool,
    /// How many clauses its logs learned.
    pub conflicts: u64,
}

pub type Rows = Items<Row>;

/// What a report says of the two designs.
#[derive(Clone, Copy, Debug, PartialEq, Eq)]
pub enum Whole {
    /// They are equivalent.
    Pass,
    /// Some partition differs, which need not be a difference of the designs.
    Fail,
    Unknown,
}

//! Limits of a plan.

/// The most partitions of a plan.
pub const MOST_PARTITIONS: u32 = 4_096;

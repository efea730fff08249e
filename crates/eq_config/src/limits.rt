//! The limits of a configuration, and its defaults.

/// The most bytes of a text.
pub const MOST_BYTES: usize = 67_108_864;

/// The most bytes of a word.
pub const MOST_IN_WORD: usize = 1_024;

/// The most files of a side.
pub const MOST_FILES: usize = 64;

/// The most strategies.
pub const MOST_STRATEGIES: usize = 16;

/// The most rules: lines of match, collect and partition sections, and `apply` lines.
pub const MOST_RULES: u32 = 4_096;

/// The greatest depth.
pub const MOST_DEPTH: u32 = 64;

/// The most conflicts.
pub const MOST_CONFLICTS: u32 = 200_000;

/// The depth of a strategy without a `depth` line.
pub const DEFAULT_DEPTH: u32 = 5;

/// The conflicts of a strategy without a `conflicts` line.
pub const DEFAULT_CONFLICTS: u64 = 20_000;

//! Where something stands in a name.

use eq_base::Items;

/// The bytes from `start` up to `end`, which isn't one of them.
#[derive(Clone, Copy, Debug, PartialEq, Eq)]
pub struct Span {
    pub start: u64,
    pub end: u64,
}

/// Where the wilds of a pattern stand in a name, in the order of the pattern.
pub type Captures = Items<Span>;

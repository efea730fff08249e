//! How deep a text may be.

/// How many counted marks one outermost expression or target has at most.
pub(crate) const MARKS: u32 = 1000;

/// How many statements may stand in one another: the one of level 0, and those of the levels 1 to 200.
pub(crate) const STATEMENTS: u32 = 201;

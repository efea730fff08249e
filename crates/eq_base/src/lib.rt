//! What all crates share: want of memory, and lists and boxes that contracts see as lists and as their values.
//!
//! The lowest crate. It has no function and no module: `Memory` is the standard library's error for want of memory, so
//! that `?` needs no conversion; `Items` and `Boxed` are the kit's list and box; the other names are lists of them.
#![tactic(auto)]

pub use sqlite_items::{Boxed, Items};
pub use std::alloc::AllocError as Memory;

/// Bytes, as of a file, a name or a piece of text.
pub type Bytes = Items<u8>;

/// Truth values, as of the bits of a design or of the variables of a formula.
pub type Bits = Items<bool>;

/// Truth values for each cycle, the first cycle first.
pub type Frames = Items<Bits>;

/// Numbers of 64 bits.
pub type Numbers = Items<u64>;

//! The drivers of all bits of a design that is laid out, from the tables of what drives, sets and begins each bit.
//!
//! - `slots`: the three tables (`Slots`; what they say is `Tell`).
//! - `doubling`: the first bit with two drivers, and the first reg without initial value (`first_below`).
//! - `flagging`: which bits are those of regs (`AreRegs`).
//! - `choosing`: the driver of one bit by its slots. `wiring`: those of all bits (`AreTold`).
#![tactic(auto)]

mod choosing;
mod doubling;
mod flagging;
mod slots;
mod wiring;

pub use doubling::{first_doubled, first_without_initial};
pub use flagging::reg_flags;
pub use slots::Slots;
pub use wiring::{drivers, slots_of_more_words};

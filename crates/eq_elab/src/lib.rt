//! Elaboration: from the modules of sources to one netlist, or to the first thing that is wrong.
//!
//! - `elaborating`: all steps in the order of the refusals (`elaborate`).
//! - `wiring`: what drives, sets and begins each bit of a design that is laid out (`slots_of`: `Tell`).
//! - `checking`: the conditions on bits that are looked for when all bits have their drivers.
//! - `looping`: a loop, by the names of its bits. `naming`: the bits of nets by their numbers.
#![tactic(auto)]

mod checking;
mod elaborating;
mod looping;
mod naming;
mod wiring;

pub use elaborating::elaborate;
pub use eq_verilog::{BitNames, ElabErr, ElabKind};

//! A netlist from a design that is laid out, from its words and from its drivers.
//!
//! - `clocking`: the number of the net of a bit (`net_of_bit`: `IsNetOf`).
//! - `porting`: the numbers of the ports' nets, by the table of the top's names (`port_numbers`: `AreNumbers`).
//! - `assembling`: the netlist (`assemble`: `AreParts`).
#![tactic(auto)]

mod assembling;
mod clocking;
mod porting;

pub use assembling::assemble;

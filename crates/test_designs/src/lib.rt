//! Tests of elaboration from texts, over the built libraries.
//!
//! - `reading`: the netlist of texts (`netlist_of`). `texts`: several texts, and texts outside the grammar.
//! - `refusing`: the first row of a table that isn't refused so. `modules`, `drivers`, `clocks`, `loops`: designs that are
//!   refused, by the kind of the refusal. `order`: designs with faults of two kinds. `limits`: designs at the limits.
//! - `running`: designs run cycle by cycle. `contexts`, `ranges`, `gates`, `connections`, `adders`: those without registers.
//!   `registers`, `copied`, `series`: those with registers, with clocks behind copies, and over 20 cycles.
//! - `ports`: whether two designs have the same ports.
#![tactic(auto)]

#[cfg(test)]
mod adders;
#[cfg(test)]
mod clocks;
#[cfg(test)]
mod connections;
#[cfg(test)]
mod contexts;
#[cfg(test)]
mod copied;
#[cfg(test)]
mod drivers;
#[cfg(test)]
mod gates;
#[cfg(test)]
mod limits;
#[cfg(test)]
mod loops;
#[cfg(test)]
mod modules;
#[cfg(test)]
mod order;
#[cfg(test)]
mod ports;
#[cfg(test)]
mod ranges;
mod reading;
#[cfg(test)]
mod refusing;
#[cfg(test)]
mod registers;
#[cfg(test)]
mod running;
#[cfg(test)]
mod series;
#[cfg(test)]
mod texts;

pub use reading::{Fault, netlist_of};

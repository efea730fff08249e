//! Tests of the search of a combinational loop, over the built libraries.
//!
//! - `table`: what drives the bits of one net. `making`: net, words and drivers of a table, and its loop (`loop_of`).
//! - `loops`: tables and their loops. `rows`: many bits in a row, with and without a loop.
#![tactic(auto)]

#[cfg(test)]
mod loops;
mod making;
#[cfg(test)]
mod rows;
mod table;

pub use making::loop_of;
pub use table::Source;

//! The graph of bits of a netlist: each bit of each net has a node of its own, which follows the bit's driver.
//!
//! In the order of the data:
//!
//! - `gates`: a gate, with its value and what it reads (`Gives`). `stack`: reading and writing a stack of nodes (`Written`).
//!   `rows`: gates for each bit of operands.
//! - `sums`, `truths`, `shifts`: operators along the bits. `operators`: each in the place of its operands (`Performs`).
//! - `words`: one word as gates on top of the stack (`Puts`).
//! - `wiring`: all words as gates over the bits, each bit an input as yet (`IsWired`).
//! - `plan`: these nodes, where each bit has its own node (`IsPlan`).
//! - `placing`, `sorting`: a plan's nodes made again, each behind those that it reads (`IsSorted`).
//! - `order`: the graph of a net whose words are wired. `blasting`: `blast`, the graph (`IsBlasted`), no larger than the
//!   net's cost.
#![tactic(auto)]

mod blasting;
mod gates;
mod operators;
mod order;
mod placing;
mod plan;
mod rows;
mod shifts;
mod sorting;
mod stack;
mod sums;
mod truths;
mod wiring;
mod words;

pub use blasting::blast;
pub use eq_base::Memory;
pub use eq_bits::{Graph, NodeIds, Nodes};

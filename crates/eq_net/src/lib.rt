//! The flat netlist of one design: nets, words of bits, one driver for each bit, and stepping by one cycle.
//!
//! - `types`: nets, drivers and words. `net`: the netlist and what it keeps (`IsNet`).
//! - `automatic`: which names tools make. `naming`: the names of bits (`name_of_bit`).
//! - `stack`: digits on a stack (`Replaces`). `bitwise`, `arithmetic`, `reduction`: what is computed from them. `operators`:
//!   each operator in the place of its operands (`apply`, `reduce`, `choose`).
//! - `word`: the bits of words (`bit_of`, `HasWords`).
//! - `ordering`, `chains`: an order of the words, and what each drives, of which nothing is promised. `readiness`: whether all
//!   that a word reads has its value (`IsReady`). `marking`: bits that have their final values. `sweep`: each word evaluated
//!   once, behind what it reads (`IsSwept`).
//! - `cells`: the bits that the sweep leaves, computed one by one (`complete`).
//! - `cycle`: the first state, and one step (`IsStep`).
//! - `laws`: a net is a design, steps are its run. `examples`: what the definitions say, on numbers.
#![tactic(auto)]

mod arithmetic;
mod automatic;
mod bitwise;
mod cells;
mod chains;
mod cycle;
pub mod examples;
pub mod laws;
mod marking;
mod naming;
mod net;
mod operators;
mod ordering;
mod readiness;
mod reduction;
mod stack;
mod sweep;
mod types;
mod word;

pub use automatic::is_automatic;
pub use cycle::{State, Stepped, initial, step};
pub use eq_base::{Bits, Memory};
pub use eq_names::{BitName, Name};
pub use naming::{bit_text, named_position};
pub use net::Net;
pub use types::{
    BitNames, Dir, Driver, Drivers, NetInfo, NetInfos, NetNumbers, RedOp, Word, WordBit, WordBits,
    WordOp, Words,
};

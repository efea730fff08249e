//! What the modules of Verilog sources mean as one design, and when they are refused.
//!
//! The definitions stand in `specs/`. The functions here are empty, and their contracts are examples and laws.
//!
//! - `refusal`: why a design is refused.
//! - `examples`: modules on which each definition is tried, so that a weaker or a wrong one would not meet its contracts.
//! - `laws`: what holds of the definitions: values follow reads, one outcome, indices, offsets and costs by module, trees,
//!   look-ups by number.
#![tactic(auto)]

pub mod examples;
pub mod laws;
mod refusal;

pub use refusal::{BitNames, ElabErr, ElabKind};

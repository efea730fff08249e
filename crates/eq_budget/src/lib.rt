//! What the words of a design cost at most, by the cost of the design.
//!
//! - `laws`: equations and always items, as they become words by the tables of modules, are paid for by the cost of the
//!   design, with a node for each bit and two more (`words_are_paid`: `IsPaid`).
#![tactic(auto)]

pub mod laws;

//! What the rows of a plan say together.
//!
//! - `types`: rows, their verdicts with causes, and what is said of the whole.
//! - `concluding`: `conclude`, whose pass means that the designs are equivalent (`Equivalent`).
//! - `laws`: when a row that says proved is right.
#![tactic(auto)]

mod concluding;
pub mod laws;
#[cfg(test)]
mod tests;
mod types;

pub use concluding::conclude;
pub use types::{Cause, Causes, Row, Rows, Verdict, Whole};

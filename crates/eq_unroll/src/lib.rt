//! The formulas of a part's queries: the part unrolled over cycles, in clauses.
//!
//! - `query`: the two queries, and which of them have formulas (`is_unrollable`).
//! - `literals`: clauses of one to three literals, put in order as they are made (`ordered`).
//! - `nodes`: the clauses that tie a node to its operands, and a register to the frame before (`rows_at`).
//! - `frames`: all nodes of all frames, outputs that agree, and outputs that differ in the last frame.
//! - `unrolling`: `formula`, the list of the table, satisfiable exactly where the query holds (`Holds`).
//! - `count`: `clause_count`, the length of that list, without making it.
//! - `witness`: `run_of`, the run that satisfying values show (`Shows`).
//! - `laws`: what satisfies a formula, in the words of the model.
#![tactic(auto)]

mod count;
mod frames;
pub mod laws;
mod literals;
mod nodes;
mod query;
mod unrolling;
mod witness;

pub use count::clause_count;
pub use eq_base::Memory;
pub use query::{Query, is_unrollable};
pub use unrolling::formula;
pub use witness::run_of;

//! What a design means, and what two designs have in common: systems of equations over bits, their runs, and the laws
//! that carry a verdict from small pieces to whole designs. There is no code here but empty functions, whose contracts
//! are the laws.
//!
//! - `laws`: bits and nets, cycles, runs, induction, composition, parts, graphs, agreement; `laws::equivalence` what
//!   refutes and joins equivalences; `laws::parts` the first difference and the runs of a part.
//! - `examples`: designs, plans, parts and graphs on which each definition is tried, so that a weaker or a wrong one
//!   would not meet its contracts.
#![tactic(auto)]

pub mod examples;
pub mod laws;

//! Clauses, formulas and logs of derivations, the checker of logs, and their texts.
//!
//! In the order of the data:
//!
//! - `lit`, `clause`, `rows`, `clauses`, `formula`, `step`, `log`: the values. Lists are kept flat (`rows`) and seen as
//!   lists; a clause is in order (`IsClause`), and a formula has no literal above its variables.
//! - `marks`, `trail`: the set of true literals, as one mark a variable and a trail (`HasValue`).
//! - `judgement`: what one clause says under the trail: falsified, unit, or nothing (`IsJudged`).
//! - `earlier`: the clauses that stand before a step, over formula and log, without a copy (`clauses_before`).
//! - `variables`: the highest variable of a log.
//! - `derivation`: whether a step is a derivation from the clauses before it (`IsDerivation`).
//! - `checker`: `check` answers the first step that is none, or Ok; a log that ends refutes its formula (`refuted`).
//! - `propagation`: sweeps until nothing changes, which give the least settled set (`IsForced`, `IsDone`).
//! - `freshness`: `first_stale` answers the first step that says nothing new (`IsFirstStale`).
//! - `numeral`, `words`: numbers in decimal, and lists of literals and numbers that `0` ends.
//! - `text`, `dimacs`, `lrat`: formulas and logs as texts, printed and read back, with the exact first bad line.
//! - `laws`, `text_laws`: derivations keep satisfying values and refute; a text has one first bad line at most.
#![tactic(auto)]

pub mod checker;
pub mod clause;
pub mod clauses;
mod derivation;
pub mod dimacs;
mod earlier;
pub mod formula;
pub mod freshness;
mod judgement;
pub mod laws;
pub mod lit;
pub mod log;
pub mod lrat;
mod marks;
mod numeral;
mod propagation;
pub mod rows;
pub mod step;
pub mod text;
pub mod text_laws;
mod trail;
mod variables;
mod words;

pub use checker::{CheckErr, Checked, check};
pub use clause::Clause;
pub use clauses::Clauses;
pub use dimacs::{print_dimacs, read_dimacs};
pub use formula::Formula;
pub use freshness::first_stale;
pub use lit::Lit;
pub use log::{Log, StepRef};
pub use lrat::{print_lrat, read_lrat};
pub use step::Step;
pub use text::TextErr;

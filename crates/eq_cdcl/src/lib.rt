//! A solver by conflict-driven clause learning whose logs hold fresh derivations alone.
//!
//! From the bottom:
//!
//! - `short`: numbers in four bytes.
//! - `slots`, `trail`: the true literals in order with a reason each, and for each variable the place of its literal.
//! - `known`: the clauses of a formula and of a log by number (`known_of`).
//! - `watches`: the two literals that each clause watches, and for each literal the clauses that watch it.
//! - `visiting`: a literal became false: the clauses that watch it look for another (`Visits`).
//! - `propagation`: literal after literal, up to a falsified clause or until no clause is falsified or unit (`Finds`).
//! - `activity`, `order`, `phases`, `restarts`, `heuristics`: what is decided, and when to go back to level 0. No clause
//!   speaks of it.
//! - `search`: propagation and decisions in turn, up to a conflict or to values for all variables (`Halts`).
//! - `levels`: the levels of a trail, read off the reasons.
//! - `marking`, `analysis`: down the trail from a conflict, literals are resolved away or kept (`IsResolved`).
//! - `learning`: the step of a conflict, a derivation and fresh (`learn`), or the empty clause (`refute`).
//! - `starting`: the clauses of a formula are watched, and those of one literal make it true.
//! - `backtracking`: after a conflict its clause is logged and watched, and the search goes back (`go_back`).
//! - `solver`: `solve` keeps the log and the budget. It answers values that satisfy, a log that refutes, or a log of just
//!   so many fresh steps.
#![tactic(auto)]

mod activity;
mod analysis;
mod backtracking;
mod heuristics;
mod known;
mod learning;
mod levels;
mod marking;
mod order;
mod phases;
mod propagation;
mod restarts;
mod search;
mod short;
mod slots;
pub mod solver;
mod starting;
mod trail;
mod visiting;
mod watches;

pub use solver::{Solved, solve};

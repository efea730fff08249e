//! Tests of formulas, logs, the solver and strategies.
//!
//! - `values`: formulas and logs of numbers.
//! - `checking`: the checker of logs and the search for stale steps.
//! - `texts`: the DIMACS and LRAT formats.
//! - `solving`: the solver on formulas made by hand.
//! - `drawing`: the solver on drawn formulas.
//! - `tables`: parts as tables.
//! - `formulas`: formulas of parts' queries, literal by literal.
//! - `counting`: how many clauses formulas have.
//! - `miters`: parts for induction, as tables.
//! - `evidence`: whether the log or the run of each answer of an attempt shows it.
//! - `induction`: strategies on parts, how each try ends, and what they come to.
//! - `queries`: which queries hold of small parts, and the runs that show it.
//! - `chains`: the solver on formulas with many variables.
#![tactic(auto)]

#[cfg(test)]
mod chains;
#[cfg(test)]
mod checking;
#[cfg(test)]
mod counting;
#[cfg(test)]
mod drawing;
#[cfg(test)]
mod evidence;
#[cfg(test)]
mod formulas;
#[cfg(test)]
mod induction;
#[cfg(test)]
mod miters;
#[cfg(test)]
mod queries;
#[cfg(test)]
mod solving;
#[cfg(test)]
mod tables;
#[cfg(test)]
mod texts;
#[cfg(test)]
mod values;

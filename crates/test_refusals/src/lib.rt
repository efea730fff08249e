//! Tests of the refusals of modules, over the built libraries.
//!
//! - `reading`: the first refusal of the modules of texts, and the first row of a table that isn't right.
//! - `accepted`: designs that aren't refused.
//! - `modules`, `names`, `ranges`, `targets`, `connections`: designs that are refused, by the kind of the refusal.
//! - `order`: designs with two kinds of faults.
#![tactic(auto)]

#[cfg(test)]
mod accepted;
#[cfg(test)]
mod connections;
#[cfg(test)]
mod modules;
#[cfg(test)]
mod names;
#[cfg(test)]
mod order;
#[cfg(test)]
mod ranges;
#[cfg(test)]
mod reading;
#[cfg(test)]
mod targets;

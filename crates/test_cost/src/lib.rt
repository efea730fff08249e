//! Tests of what designs cost, over the built libraries.
//!
//! - `reading`: the cost of the design of a text, and whether it is too much.
//! - `costs`: texts with their costs. `hierarchies`: instances in one another.
#![tactic(auto)]

#[cfg(test)]
mod costs;
#[cfg(test)]
mod hierarchies;
#[cfg(test)]
mod reading;

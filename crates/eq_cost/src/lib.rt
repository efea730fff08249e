//! What a design costs, before it is unfolded: a bound on the nodes that it takes as a graph of bits.
//!
//! - `counting`: sums and products up to the most that is told (`told`).
//! - `lines`: what something costs in each size, as a slope and a base (`IsLine`).
//! - `operators`, `forms`, `expressions`: the size of an expression, and its cost in each context, in one walk (`IsCosted`).
//! - `target_sizes`: the size of a target (`own`).
//! - `statements`, `seen`: a statement's cost by the number of bits that are set, and that number (`different`).
//! - `connections`, `items`: what a module costs by itself (`module_cost`).
//! - `order`, `values`: what each module costs with all in it, one number a module (`cost_below`).
//! - `designs`: the cost of a design, and whether it is too much (exactly `design_cost` and `excess`).
#![tactic(auto)]

mod connections;
mod counting;
mod designs;
mod expressions;
mod forms;
mod items;
mod lines;
mod operators;
mod order;
mod seen;
mod statements;
mod target_sizes;
mod values;

pub use designs::{design_cost, excess, too_large};

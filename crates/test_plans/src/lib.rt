//! Tests of pairs, groups and partitions, over the built libraries.
//!
//! - `types`, `tables`: of what netlists are made by hand. `cases`: what goes in and what has to come out, by topic.
//! - `designs`: netlists of signals. `ports`: whether two have the same ports.
//! - `configs`: configurations of lines behind a frame.
//! - `pairing`: which bits are paired, before any line and by each line.
//! - `grouping`: which pairs stand in groups.
//! - `chains`: netlists of wires that read one another. `crossing`: two whose reads cross.
//! - `dividing`: which partitions groups make, and their names. `planning`: the plan, or why there is none.
//!   `refusing`: too many partitions, or two of one name.
//! - `cells`: netlists of cells, each of which has a word.
//! - `cutting`: the parts of partitions, node by node. `replaying`: where their sides differ.
//! - `row`: one partition of a plan, from its cut to its row. `comparing`: all of them, and what they say together
//!   (`Equivalent`). `deciding`: netlists compared so, through all layers.
#![tactic(auto)]

#[cfg(test)]
mod cases;
#[cfg(test)]
mod cells;
#[cfg(test)]
mod chains;
#[cfg(test)]
mod comparing;
#[cfg(test)]
mod configs;
#[cfg(test)]
mod crossing;
#[cfg(test)]
mod cutting;
#[cfg(test)]
mod deciding;
#[cfg(test)]
mod designs;
#[cfg(test)]
mod dividing;
#[cfg(test)]
mod grouping;
#[cfg(test)]
mod pairing;
#[cfg(test)]
mod planning;
#[cfg(test)]
mod ports;
#[cfg(test)]
mod refusing;
#[cfg(test)]
mod replaying;
mod row;
#[cfg(test)]
mod tables;
mod types;

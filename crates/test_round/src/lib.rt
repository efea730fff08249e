//! Tests of partitions decided in order, over the built libraries.
//!
//! - `planning`: the plan of two designs that can be compared. `configs`: configurations of lines behind a frame.
//! - `deciding`: texts of two designs, with the lines of their rows; each evidence is read back. `worked`: worked examples.
#![tactic(auto)]

#[cfg(test)]
mod configs;
#[cfg(test)]
mod deciding;
#[cfg(test)]
mod planning;
#[cfg(test)]
mod worked;

//! Tests of elaboration, over the built libraries.
//!
//! - `types`, `lines`, `nets`: netlists made by hand from tables of lines. `ports`: whether two of them can be compared.
//! - `missing`: the first bit without driver that is needed. `taking`: the first that takes another as data.
//! - `pairing`: what can be compared can be paired (`paired`).
#![tactic(auto)]

#[cfg(test)]
mod lines;
#[cfg(test)]
mod missing;
#[cfg(test)]
mod nets;
mod pairing;
#[cfg(test)]
mod ports;
#[cfg(test)]
mod taking;
mod types;

pub use pairing::paired;

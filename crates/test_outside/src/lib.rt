//! Tests of the outside: its stores, its sinks and its gate.
//!
//! - `copying`: a program over any store and any sink, and the fakes that fail where they are told to.
//! - `stores`: files in memory and of the system.
//! - `sinks`: lines in memory and of a writer, and a gate that threads share.
#![tactic(auto)]

#[cfg(test)]
mod copying;
#[cfg(test)]
mod sinks;
#[cfg(test)]
mod stores;

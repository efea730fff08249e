//! Tests of evidences and their texts.
//!
//! - `tables`: parts as tables, and strategies.
//! - `printing`: what is printed of small parts, byte by byte.
//! - `texts`: texts of lines, and what is wrong with a text.
//! - `reading`: what is read of texts that are evidences.
//! - `damage`: lines that are damaged, and what is then named; and each front of a text.
#![tactic(auto)]

#[cfg(test)]
mod damage;
#[cfg(test)]
mod printing;
#[cfg(test)]
mod reading;
#[cfg(test)]
mod tables;
#[cfg(test)]
mod texts;

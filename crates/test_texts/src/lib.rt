//! Tests of texts: tokens of Verilog, and trees that are read and printed.
//!
//! - `tokens`, `marks`, `faults`: the tokens of texts, or their first faults.
//! - `reading`, `tree_text`: texts read into trees, and trees as texts.
//! - `trees`, `refusals`, `phrases`, `limits`: tables of sources and phrases with their trees or refusals.
//! - `first_configurations`, `first_designs`, `first_expressions`: the first forms of these.
//! - `made_trees`, `printed`, `drawn_texts`: trees that are printed, and drawn texts that come back.
#![tactic(auto)]

#[cfg(test)]
mod drawn_texts;
#[cfg(test)]
mod faults;
#[cfg(test)]
mod first_configurations;
#[cfg(test)]
mod first_designs;
#[cfg(test)]
mod first_expressions;
#[cfg(test)]
mod limits;
#[cfg(test)]
mod made_trees;
#[cfg(test)]
mod marks;
#[cfg(test)]
mod phrases;
#[cfg(test)]
mod printed;
#[cfg(test)]
mod reading;
#[cfg(test)]
mod refusals;
#[cfg(test)]
mod tokens;
#[cfg(test)]
mod tree_text;
#[cfg(test)]
mod trees;

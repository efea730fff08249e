//! Tests of the program's lines, over the built libraries. What is expected is written out by hand.
//!
//! - `making`: names, strategies, partitions and rows of tables, and whether a line is the one that is expected.
//! - `texts`: files that are refused, each kind of each line.
//! - `designs`: designs, ports and plans that are refused, each kind.
//! - `reports`: whole reports, and rows of what strategies came to.
//! - `statuses`: the numbers with which the program ends.
#![tactic(auto)]

#[cfg(test)]
mod designs;
#[cfg(test)]
mod making;
#[cfg(test)]
mod reports;
#[cfg(test)]
mod statuses;
#[cfg(test)]
mod texts;

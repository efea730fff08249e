//! The lines that the program prints, byte for byte.
//!
//! - `refusal`: why a run has no report, in one type (`Refusal`).
//! - `words`: how each kind of a fault is spelled (`config_word`, `lex_word`, `kind_word`, ..).
//! - `put`: bytes and decimals at the end of a line.
//! - `telling`: the line of a refusal (`refusal_line`).
//! - `rows`: the row of a partition that was decided (`row_of`), and the line of a row (`row_line`).
//! - `closing`: how many rows say what (`counts_of`), and the two lines at the end (`closing_lines`).
//! - `status`: the numbers with which the program ends (`status_number`).
//! - `laws`: what all rows say together; a front of the rows has a front of the report.
//! - `examples`: lines that are written out. The checker computes each.
#![tactic(auto)]

mod closing;
pub mod examples;
pub mod laws;
mod put;
mod refusal;
mod rows;
mod status;
mod telling;
mod words;

pub use closing::{Counts, closing_lines, counts_of};
pub use refusal::{DesignFault, PlanFault, PortFault, Refusal, TextFault, Which};
pub use rows::{row_line, row_of};
pub use status::Status;
pub use telling::refusal_line;

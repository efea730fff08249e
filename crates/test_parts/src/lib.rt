//! Parts made from tables, for tests and for what is measured.
//!
//! - `table`: `is_table` is the test for a table that makes a part, and `part` makes it.
#![tactic(auto)]

mod table;

pub use table::{Sides, is_table, part};

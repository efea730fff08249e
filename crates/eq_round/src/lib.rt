//! The partitions of a plan, from the cut to the row and the evidence.
//!
//! In the order of the data:
//!
//! - `work`: two netlists with their graphs, their plan with the table of its cuts, and strategies (`IsWork`); how large
//!   that is (`size_number`).
//! - `deciding`: `decide_partition`, what the strategies come to on a partition (`IsPartitionDone`).
//! - `rounds`: `decide_round`, the same of several partitions in order (`AreDone`).
//! - `evidence`: `evidence_of`, the text of that (`evidence_text`).
//! - `laws`: the rows of what is done are right, and an UNKNOWN row has a cause for each strategy that applies.
#![tactic(auto)]

mod deciding;
mod evidence;
pub mod laws;
mod rounds;
mod work;

pub use deciding::{Done, decide_partition};
pub use eq_base::{Bytes, Memory};
pub use evidence::evidence_of;
pub use rounds::decide_round;
pub use work::{MOST_SIZE, Work, are_strategies_for, size_number};

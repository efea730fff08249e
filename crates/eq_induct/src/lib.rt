//! Parts proved by induction: the queries of a strategy in order, and strategies in order.
//!
//! - `types`: queries with their answers, attempts, tries, and what they say together.
//! - `asking`: one query asked of the solver, with an answer that shows what it says (`IsAnswer`).
//! - `course`: `attempt` asks the queries of one strategy in order, up to one that ends it (`IsAttempt`).
//! - `deciding`: `decide` tries the strategies that apply in order, up to one that decides (`IsOutcome`).
//! - `laws`: an attempt ends as k-induction does, unless its conflicts are spent; what a verdict says.
#![tactic(auto)]

mod asking;
mod course;
mod deciding;
pub mod laws;
mod types;

pub use course::{are_usable, attempt, is_usable};
pub use deciding::{applies, decide};
pub use eq_base::Memory;
pub use types::{Answer, Asked, AskedList, Attempt, Decided, End, PartVerdict, Tries, Try};

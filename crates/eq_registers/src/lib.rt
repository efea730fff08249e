//! The next values that an always item gives, as bits of words.
//!
//! - `keys`: the bits that an always item sets, and the place of each in the item's tables (`HasKeys`).
//! - `collecting`: the bits that a statement sets (`collect`: `IsCollected`).
//! - `setting`: a statement that sets a target (`run_set`). `choosing`: the bits between which a condition chooses.
//! - `running`: a statement runs on a table of next values (`run_stmt`: `HasRun`).
//! - `stepping`: the next values that an always item gives, from the bits themselves (`next_values`: `HasNext`).
#![tactic(auto)]

mod choosing;
mod collecting;
mod keys;
mod running;
mod setting;
mod stepping;

pub use collecting::collect;
pub use keys::Keys;
pub use running::run_stmt;
pub use stepping::{Next, next_values};

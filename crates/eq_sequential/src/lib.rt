//! The always items and initial values of all instances of a design that is laid out.
//!
//! - `beginning`: which constant begins each bit (`all_initials`: `AreBegun`).
//! - `paths`: the names of an instance's nets. `placing`: what an always item sets, put into the slots (`put_all`).
//! - `following`: which always item sets each bit, and by which bit of a word (`all_next`: `AreFollowed`).
//! - `events`: at which bit's edge each always item runs (`all_events`).
#![tactic(auto)]

mod beginning;
mod events;
mod following;
pub mod laws;
mod paths;
mod placing;

pub use beginning::{Begun, all_initials};
pub use events::all_events;
pub use following::all_next;

//! The instances and nets of a design that isn't refused for its modules, as all later steps have them.
//!
//! - `layout`: the tables of all modules, the instances, their nets and where their bits begin (`lay_out`: `LaysOut`).
//! - `driving`: what drives each bit of a design that is laid out (`driven`).
#![tactic(auto)]

mod driving;
mod layout;

pub use driving::driven;
pub use layout::{Layout, lay_out};

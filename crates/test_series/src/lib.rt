//! Netlists of any length, each shown to be one by arithmetic, for tests and for what is measured.
//!
//! - `making`: what both have. `additions`: a chain of sums of 8 bits. `stages`: nets of one width, one behind the
//! other. `ripple`: the carries of a sum, as one word that reads its own bits through a net.
#![tactic(auto)]

mod additions;
mod making;
mod ripple;
mod stages;

pub use additions::chain_of_additions;
pub use eq_base::Memory;
pub use making::ranged;
pub use ripple::chain_of_carries;
pub use stages::{all_bits, chain_of_stages};

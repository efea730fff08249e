//! Pairs of bits of two netlists, and groups of pairs, as a configuration says.
//!
//! In the order of the data:
//!
//! - `types`: pairs and groups.
//! - `index`: what matching asks of a netlist: numbers of names, and which nets its lines see (`IsIndex`).
//! - `table`: pairs of nets, by nets of gold and by nets of gate (`IsTable`).
//! - `first`: the pairs before any line is read (`IsFirstPairing`).
//! - `leading`: the net to which a pattern and a template lead (`LeadsFrom`).
//! - `line`, `losing`, `lines`: one line (`RuleMakes`), and all lines in their order (`SectionsMake`).
//! - `spelling`: pairs of nets bit by bit (`bits_of_nets`).
//! - `pairing`: `pairs`, the pairs that a configuration says (`ArePairs`).
//! - `classes`: divisions of positions into classes (`Classes::by_keys`: one class for each key).
//! - `listing`: the classes as lists, in order (`classes_of`).
//! - `regrouping`: how classes change (`Classes::alone`, `gathered`, `touched`).
//! - `hitting`: the pairs that a pattern hits (`TellsHits`).
//! - `grouping`: `groups`, the groups that a configuration says (`AreGroups`).
//! - `laws`, `examples`: what is proved of the definitions alone, and what they say of small netlists.
#![tactic(auto)]

mod classes;
pub mod examples;
mod first;
mod grouping;
mod hitting;
mod index;
pub mod laws;
mod leading;
mod line;
mod lines;
mod listing;
mod losing;
mod pairing;
mod regrouping;
mod spelling;
mod table;
mod types;

pub use classes::Classes;
pub use eq_base::Memory;
pub use grouping::groups;
pub use hitting::hit_pairs;
pub use listing::classes_of;
pub use pairing::pairs;
pub use types::{Groups, Pair, Pairs, Partner, Positions};

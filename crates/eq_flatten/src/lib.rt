//! The instances of a design, their nets in a row, and the words of a netlist that drive the nets' bits.
//!
//! - `paths`: the instances of a design, each but the top with how it is written in another (`HasPaths`).
//! - `owning`: the nets of each module as if it stood alone (`nets_at`). `flat`: those of all instances (`IsFlat`).
//! - `starts`: the number of each net's first bit (`starts_of`).
//! - `clashes`: the first full name that comes again (`path_clash`).
//! - `bits`: the bits that a name or a select means, low bit first (`AreMeant`).
//! - `forms`, `leaves`, `words`: the word of an expression (`word`: `Makes`, so its width, values, reads, copies and cost).
//! - `rendering`: what such a word says in a netlist (`words_render`), and in which scopes (`scopes_agree`).
//! - `target_bits`, `driving`: the bits of a target, and what drives each bit so far (`Slot`).
//! - `equations`, `gates`, `items`, `linking`: assignments, gates and connections become words and drivers (`AddsEquations`).
//!   `flattening`: those of all instances' items. `joining`: those of all instances' connections.
//! - `initials`: which initial value begins each bit (`AddsInitials`).
//! - `slots`: those of a whole design that isn't refused, as the definitions have them (`all_slots`).
//! - `summing`: that these together are the equations of the design, whatever their order (`equations_by_links`).
#![tactic(auto)]

mod bits;
mod clashes;
mod driving;
mod equations;
mod flat;
mod flattening;
mod forms;
mod gates;
mod initials;
mod items;
mod joining;
mod leaves;
mod linking;
mod owning;
mod paths;
mod rendering;
mod slots;
mod starts;
mod summing;
mod target_bits;
mod words;

pub use clashes::path_clash;
pub use driving::{Slot, number_in};
pub use flat::{FlatNets, flat_nets};
pub use flattening::add_paths;
pub use initials::{add_initials, initial_by_slot};
pub use joining::add_links;
pub use owning::{Owned, all_owned};
pub use paths::{Link, Path, Paths, Placed, all_paths};
pub use rendering::{scopes_agree, words_render};
pub use slots::all_slots;
pub use starts::{Starts, starts_of};
pub use summing::{designs_end, equations_agree, equations_by_links, equations_by_tables};
pub use target_bits::add_target;
pub use words::{add_word, word};

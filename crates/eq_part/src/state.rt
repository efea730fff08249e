//! Partitions while lines are read.

use eq_base::Items;
use eq_match::Classes;
use eq_names::Name;

/// Of each leader the name that a line gave to its partition.
pub type GivenNames = Items<Option<Name>>;

/// Partitions while lines are read.
#[derive(Drop)]
pub struct State {
    pub classes: Classes,
    pub names: GivenNames,
}

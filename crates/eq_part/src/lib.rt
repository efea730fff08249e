//! Partitions of the pairs of two netlists, and the plan of their comparison.
//!
//! - `types`: partitions, and why there is no plan.
//! - `plan`: the plan, with tables whose invariant ties them to its lists.
//! - `starting`: the partitions before any line is read (`from_groups`).
//! - `state`, `uniting`: partitions while lines are read, and their unions (`union`).
//! - `merging`, `renaming`: the lines `merge` and `name` (`RuleMakes`).
//! - `reached`: what can be reached in a graph (`IsReached`).
//! - `visits`: the graph of a walk against the reads (`AreVisits`), over the nodes of words of `eq_reads`.
//! - `path`: `on_path`, the partitions on a path (`LiesBetween`). `joining`: the line `path`.
//! - `lines`: all lines in their order (`SectionsMake`).
//! - `wholes`, `finishing`: the partitions that are left when all lines are read, and their names (`IsNameOf`).
//! - `dividing`: `divide`, the partitions that a configuration makes (`ArePartitions`). `clashes`: two of one name.
//! - `tables`, `planning`: the plan with its tables, and `partitions` (`IsPlanOf`, `MakesTooMany`, `MakesSameName`).
//! - `laws`: laws of the definitions, without code: what matched pairs have, and that a plan of them covers two designs.
//! - `examples`: what the definitions say of small lists of pairs.
#![tactic(auto)]

mod clashes;
mod dividing;
pub mod examples;
mod finishing;
mod joining;
pub mod laws;
mod limits;
mod lines;
mod merging;
mod path;
mod plan;
mod planning;
mod reached;
mod renaming;
mod starting;
mod state;
mod tables;
mod types;
mod uniting;
mod visits;
mod wholes;

pub use dividing::divide;
pub use eq_base::Memory;
pub use limits::MOST_PARTITIONS;
pub use plan::{BitNumbers, PairedBits, Places, Plan};
pub use planning::partitions;
pub use types::{Partition, Partitions, PlanErr};

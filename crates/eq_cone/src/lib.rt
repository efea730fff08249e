//! One partition cut out of two designs, as a part in which both sides stand up to the paired bits outside.
//!
//! In the order of the data:
//!
//! - `paired`: for all cuts of two graphs, of which pair each node is the own node (`ArePaired`).
//! - `numbers`: distinct numbers in an order. `sides`: both graphs in one row, and where a cut stops (`cut_of`).
//! - `roots`: the nodes of the outputs (`AreRoots`). `cone`: all that they read, up to the cuts (`IsCone`).
//! - `inputs`: the pairs of the cuts (`AreInputs`).
//! - `copying`: the cone's nodes in a part, registers with their next nodes (`IsLinking`).
//! - `parting`: outputs and names, and the part (`IsNamedPart`). `steps`: these steps one after the other (`IsCutOut`).
//! - `partition`: `cut`, whose part denotes the partition.
//! - `laws`: the graphs and the plan of two netlists meet what `paired_nodes` asks.
#![tactic(auto)]

mod cone;
mod copying;
mod inputs;
pub mod laws;
mod numbers;
mod paired;
mod parting;
mod partition;
mod roots;
mod sides;
mod steps;

pub use eq_base::Memory;
pub use eq_bits::{Graph, Part};
pub use eq_part::{Places, Plan};
pub use paired::paired_nodes;
pub use partition::cut;

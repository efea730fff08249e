//! Graphs of single bits, and what is done with them before any formula is made. In the order of the data:
//!
//! - `node`: nodes, lists of them and graphs. A list of nodes stands for a system of equations.
//! - `builder`: a list that grows. `Builder::node` answers the number of a node that is the one asked for, and keeps all
//!   nodes before it; `finish` gives a list in which no gate stands twice.
//! - `part`: two sides in one list of nodes, with inputs and outputs.
//! - `cycle`: `eval` gives the nodes of a part their values in one cycle.
//! - `run`: `replay` answers the first cycle and output of a run in which the two sides of a part differ.
//! - `laws`: a list of nodes is a system without a loop, a part is one of the model, and it has exactly one run on given
//!   registers and inputs.
#![tactic(auto)]

mod builder;
mod cycle;
pub mod laws;
mod node;
mod part;
mod run;

pub use builder::Builder;
pub use cycle::{Scratch, eval};
pub use eq_base::{Bits, Frames, Memory};
pub use eq_names::Name;
pub use node::{Graph, Node, NodeIds, Nodes};
pub use part::{Names, Output, Outputs, Part};
pub use run::{Difference, Run, replay};

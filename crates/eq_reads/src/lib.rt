//! The graph of what the bits of nets read within a cycle, before there is a netlist.
//!
//! - `graph`: edges and nodes, and the graph itself (`reads_graph`: `AreReads`).
//! - `edges`, `row`: edges that are added (`Adds`), and rows of nodes (`Appended`).
//! - `nodes`, `operators`: nodes that lead to what others lead to (`RowGrew`), and those of operations (`OperandsLead`).
//! - `words`: the nodes of words, a few for each bit (`word_nodes`: `IsReady`).
#![tactic(auto)]

mod edges;
mod graph;
mod nodes;
mod operators;
mod row;
mod words;

pub use edges::{add, push_edge};
pub use eq_base::Memory;
pub use graph::{Edge, Nodes, reads_graph};
pub use words::{WordNodes, named, picked, starts, word_nodes};

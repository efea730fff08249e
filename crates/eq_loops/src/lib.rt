//! The first bit on a combinational loop of nets, words and drivers, with a chain of reads that leads back to it.
//!
//! What only makes it fast promises nothing, and what it gives is tested: where a test failed, more bits would be tried.
//!
//! - `numbers`: the number at a place, and sums.
//! - `links`: the edges of each node. `finishing`: a walk in depth. `spreading`: a walk in breadth. Nothing is promised of them.
//! - `components`: numbers of the strongly connected components of a graph, which fall along no edge (`NeverFall`).
//! - `suspects`: with such numbers a node before which none is on a cycle (`AreClear`).
//! - `back`: the nodes from which edges lead back to a bit (`LeadBack`).
//! - `rounds`: the round of bits through a bit, or that there is none (`IsRound`, `IsClear`).
//! - `loops`: `first_loop`, the first bit on a loop and its chain (`IsCycle`), or that there is no loop (`IsLoopFree`).
#![tactic(auto)]

mod back;
mod components;
mod finishing;
mod links;
mod loops;
mod numbers;
mod rounds;
mod spreading;
mod suspects;

pub use components::component_numbers;
pub use eq_base::Memory;
pub use loops::first_loop;

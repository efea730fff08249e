//! What is said of a part.
//!
//! The nodes of inputs stand first. Those of gold's cone follow in the order of gold's graph, and those of gate's, but a gate
//! that stands there already.

use eq_bits::Node;

/// A part: its name, its inputs' names, its nodes, and of each output the name and the nodes of gold and of gate.
#[derive(Clone, Copy)]
pub struct Wanted {
    pub name: &'static [u8],
    pub inputs: &'static [&'static [u8]],
    pub nodes: &'static [Node],
    pub outputs: &'static [(&'static [u8], u32, u32)],
}

/// The numbers of gold's and gate's netlists, the lines behind the frame, the partition's place, and its part.
pub type Row = (u8, u8, &'static [u8], u32, Wanted);

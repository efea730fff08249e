//! The nodes of a graph of bits.

ghost use Rattle.std.specs.Prelude.{◌≡◌};
ghost use Rattle.eq_bits.specs.Node.{is_register};

use eq_base::Items;

/// A node, which has one bit in each cycle. It names others by their numbers: its operands stand before it.
#[derive(Clone, Copy, Debug, PartialEq, Eq, Hash)]
pub enum Node {
    Const(bool),
    /// The input of this number.
    Input(u32),
    Not(u32),
    And(u32, u32),
    Xor(u32, u32),
    /// The second where the first is 1, else the third.
    Mux(u32, u32, u32),
    /// The same value as its operand.
    Buf(u32),
    /// In the first cycle `init`, in each later one what the node `next` had in the cycle before.
    Reg { next: u32, init: bool },
}

pub type Nodes = Items<Node>;

/// Numbers of nodes.
pub type NodeIds = Items<u32>;

/// The nodes of a netlist, and for each of its bits in order the bit's own node.
#[derive(Debug, Drop)]
pub struct Graph {
    pub nodes: Nodes,
    pub bits: NodeIds,
}

impl Node {
    pub fn is_register(&self) -> bool
        ensures { result ≡ is_register self.now }
    {
        matches!(self, Node::Reg { .. })
    }
}

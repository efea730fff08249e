//! The nodes of two graphs in one row, gold's first, and where a cut stops.

ghost use Rattle.std.specs.Prelude.{◌≡◌, ◌+◌, ◌-◌, ◌<◌, ◌^◌, length};
ghost use Rattle.std.specs.Option.{ForSome};
ghost use Rattle.eq_bits.specs.Node.{IsNode, node_at};
ghost use Rattle.eq_cone.specs.inner.Sides.{AreSides, cut_of, is_inside, has_complement, nodes_of, shifted};

use eq_bits::Node;
use eq_match::Pair;

/// What one cut looks at.
#[derive(Drop)]
pub struct Sides<'a> {
    pub gold: &'a [Node],
    pub gate: &'a [Node],
    /// Of each node of the row the pair whose bit's own node it is.
    pub paired: &'a [Option<u32>],
    /// Of each pair the partition that holds it.
    pub owners: &'a [Option<u32>],
    pub pairs: &'a [Pair],
    pub part: u32,
}

/// The node with its operands as much further on.
fn shifted(by: u32, node: Node) -> Node
    requires { IsNode (2 ^ 32 - by) (2 ^ 32 - by) node }
    ensures { result ≡ shifted by node }
{
    match node {
        Node::Const(bit) => Node::Const(bit),
        Node::Input(i) => Node::Input(i),
        Node::Not(a) => Node::Not(by + a),
        Node::And(a, b) => Node::And(by + a, by + b),
        Node::Xor(a, b) => Node::Xor(by + a, by + b),
        Node::Mux(s, a, b) => Node::Mux(by + s, by + a, by + b),
        Node::Buf(a) => Node::Buf(by + a),
        Node::Reg { next, init } => Node::Reg {
            next: by + next,
            init,
        },
    }
}

impl<'a> Sides<'a> {
    /// How many nodes the row has.
    pub fn len(&self) -> usize
        requires { AreSides self.now }
        ensures { result ≡ length (nodes_of self.now) }
    {
        self.gold.len() + self.gate.len()
    }

    /// A node of the row.
    pub fn node(&self, m: u32) -> Node
        requires sides { AreSides self.now }
        requires there { m < length (nodes_of self.now) }
        ensures { result ≡ node_at (nodes_of self.now) m }
    {
        let gold = self.gold.len() as u32;
        if m < gold {
            self.gold[m as usize]
        } else {
            shifted(gold, self.gate[(m - gold) as usize])
        }
    }

    /// Whether a node whose bit is of this pair has the complement of the pair's value.
    pub fn has_complement(&self, m: u32, pair: u32) -> bool
        requires sides { AreSides self.now }
        requires pair { pair < length self.now.owners.now }
        ensures { result ≡ has_complement self.now m pair }
    {
        self.gold.len() <= m as usize && self.pairs[pair as usize].inverted
    }

    fn is_inside(&self, pair: u32) -> bool
        requires { pair < length self.now.owners.now }
        ensures { result ≡ is_inside self.now.owners.now self.now.part pair }
    {
        match self.owners[pair as usize] {
            Some(owner) => owner == self.part,
            None => false,
        }
    }

    /// The pair outside whose bit's own node a node is.
    pub fn cut(&self, m: u32) -> Option<u32>
        requires sides { AreSides self.now }
        requires there { m < length (nodes_of self.now) }
        ensures value { result ≡ cut_of self.now m }
        ensures pair { ForSome result (λ pair. pair < length self.now.owners.now) }
    {
        match self.paired[m as usize] {
            Some(pair) => {
                if self.is_inside(pair) {
                    None
                } else {
                    Some(pair)
                }
            }
            None => None,
        }
    }
}

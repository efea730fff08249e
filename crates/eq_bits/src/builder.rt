//! A list of nodes that grows, and in which no gate stands twice.

ghost use Rattle.std.specs.Prelude.{◌≡◌, ◌⊎◌, ◌+◌, ◌-◌, ◌<◌, ◌^◌, [], ◌∷◌, ◌++◌, Some, None, IfOk, OnErr, OnOk, length, slice_get, slice_set, true, false};
ghost use Rattle.std.specs.HashMap.{get};
ghost use Rattle.eq_bits.specs.Node.{AreNodes, IsNode, is_register, node_at};
ghost use Rattle.eq_bits.specs.Shared.{Extends, HasSmallerFirst, IsKnown, Shared, is_gate, normal_form, with_next};
ghost use Rattle.eq_bits.specs.inner.Building.{IsBuilt, equal};

use crate::node::{Node, Nodes};
use eq_base::Memory;
use std::alloc::Global;
use std::collections::HashMap;
use std::marker::Model;

/// A list of nodes, which grows at its end. Contracts see the list.
#[derive(Drop)]
pub struct Builder {
    nodes: Vec<Node>,
    /// The number of each gate.
    numbers: HashMap<Node, u32>,
}

impl Model for Builder {
    ghost use Rattle.std.specs.Prelude.{List};
    ghost use Rattle.eq_bits.specs.declared.node.Node.{Node};
    ghost use Rattle.eq_bits.specs.inner.Building.{IsBuilt};

    ghost Value = { List Node };

    ghost view = { λ b. b.nodes.items };

    ghost invariant = { λ b. IsBuilt b.nodes.items b.numbers };
}

impl Node {
    /// Whether one node may stand for all that are equal to it.
    fn is_gate(&self) -> bool
        ensures { result ≡ is_gate self.now }
    {
        !matches!(self, Node::Input(_) | Node::Buf(_) | Node::Reg { .. })
    }

    /// The same node with the smaller operand first, where the order doesn't matter.
    fn normal_form(self) -> Node
        ensures { result ≡ normal_form self }
    {
        match self {
            Node::And(a, b) => Node::And(a.min(b), a.max(b)),
            Node::Xor(a, b) => Node::Xor(a.min(b), a.max(b)),
            _ => self,
        }
    }
}

/// Appends a node that stands for itself alone.
fn append(nodes: &mut Vec<Node>, numbers: &HashMap<Node, u32>, node: Node) -> Result<u32, Memory>
    requires built { IsBuilt nodes.old.items numbers.now }
    requires room { length nodes.old.items < 2 ^ 32 - 1 }
    requires alone { is_gate node ≡ false }
    requires operands { IsNode (length nodes.old.items + 1) (length nodes.old.items) node }
    ensures number { IfOk result (λ m. m ≡ length nodes.old.items) }
    ensures ok { OnOk result (nodes.new.items ≡ nodes.old.items ++ node ∷ []) }
    ensures err { OnErr result (nodes.new.items ≡ nodes.old.items) }
    ensures built { IsBuilt nodes.new.items numbers.now }
{
    let number = nodes.len() as u32;
    nodes.push(node)?;
    Ok(number)
}

/// Appends a gate that isn't there yet.
fn append_gate(
    nodes: &mut Vec<Node>,
    numbers: &mut HashMap<Node, u32>,
    node: Node,
) -> Result<u32, Memory>
    requires built { IsBuilt nodes.old.items numbers.old }
    requires room { length nodes.old.items < 2 ^ 32 - 1 }
    requires gate { is_gate node ≡ true }
    requires operands { IsNode (length nodes.old.items) (length nodes.old.items) node }
    requires smaller_first { HasSmallerFirst node }
    requires new { get equal numbers.old node ≡ None }
    ensures number { IfOk result (λ m. m ≡ length nodes.old.items) }
    ensures ok { OnOk result (nodes.new.items ≡ nodes.old.items ++ node ∷ []) }
    ensures err { OnErr result (nodes.new.items ≡ nodes.old.items) }
    ensures built { IsBuilt nodes.new.items numbers.new }
{
    let number = nodes.len() as u32;
    nodes.push(node)?;
    match numbers.insert(node, number) {
        Ok(_) => Ok(number),
        Err(fault) => {
            nodes.pop();
            Err(fault.into())
        }
    }
}

impl Builder {
    pub fn new(alloc: Global) -> Result<Builder, Memory>
        ensures { IfOk result (λ builder. builder ≡ []) }
    {
        Ok(Builder {
            nodes: Vec::new(alloc),
            numbers: HashMap::new(alloc),
        })
    }

    /// The number of a node that is equal to this one, but for the order of And's and Xor's operands. A gate that is there
    /// already stays alone; any other node comes to the end.
    pub fn node(&mut self, node: Node) -> Result<u32, Memory>
        requires operands { IsNode (length self.old) (length self.old) node }
        requires kind { is_register node ≡ false }
        requires room { length self.old < 2 ^ 32 - 1 }
        ensures ok { IfOk result (λ m. slice_get self.new m ≡ Some (normal_form node)) }
        ensures known { IsKnown self.old node → OnOk result (self.new ≡ self.old) }
        ensures new { ¬ IsKnown self.old node → IfOk result (λ m. m ≡ length self.old) }
        ensures added { ¬ IsKnown self.old node →
            OnOk result (self.new ≡ self.old ++ normal_form node ∷ []) }
        ensures kept { Extends self.old self.new }
        ensures grown { (self.new ≡ self.old) ⊎
            (self.new ≡ self.old ++ normal_form node ∷ []) }
        ensures err { OnErr result (self.new ≡ self.old) }
    {
        let node = node.normal_form();
        if !node.is_gate() {
            return append(&mut self.nodes, &self.numbers, node);
        }
        match self.numbers.get(&node).copied() {
            Some(number) => Ok(number),
            None => append_gate(&mut self.nodes, &mut self.numbers, node),
        }
    }

    /// Appends a register, whose next node is itself until `set_next` gives it another.
    pub fn register(&mut self, init: bool) -> Result<u32, Memory>
        requires room { length self.old < 2 ^ 32 - 1 }
        ensures number { IfOk result (λ m. m ≡ length self.old) }
        ensures ok { OnOk result (self.new ≡ self.old ++ Node.Reg (length self.old) init ∷ []) }
        ensures err { OnErr result (self.new ≡ self.old) }
    {
        let next = self.nodes.len() as u32;
        append(&mut self.nodes, &self.numbers, Node::Reg { next, init })
    }

    /// Gives the register of this number its next node.
    pub fn set_next(&mut self, reg: u32, next: u32)
        requires reg { is_register (node_at self.old reg) ≡ true }
        requires next { next < length self.old }
        ensures { self.new ≡ slice_set self.old reg (with_next (node_at self.old reg) next) }
    {
        if let Node::Reg { init, .. } = self.nodes[reg as usize] {
            self.nodes[reg as usize] = Node::Reg { next, init };
        }
    }

    /// How many nodes there are.
    pub fn len(&self) -> u32
        ensures { result ≡ length self.now }
    {
        self.nodes.len() as u32
    }

    /// The nodes. A register whose next node was never set has itself.
    pub fn finish(self) -> Nodes
        ensures nodes { result ≡ self }
        ensures shared { Shared self }
        ensures operands { AreNodes self }
        ensures few { length self < 2 ^ 32 }
    {
        let Builder { nodes, .. } = self;
        Nodes::from_vec(nodes)
    }
}

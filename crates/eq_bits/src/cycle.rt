//! The values of a part's nodes in one cycle.

ghost use Rattle.std.specs.Prelude.{◌≡◌, ℕ, ◌<◌, Bool, false, true, IfOk, length, replicate};
ghost use Rattle.eq_model.specs.Frames.{values};
ghost use Rattle.eq_model.specs.System.{Cycle, compute, nothing};
ghost use Rattle.eq_bits.specs.Cycle.{held, register_count, values_after, values_with};
ghost use Rattle.eq_bits.specs.Node.{AllNameInputs, AreNodes, IsNode, NamesInput, driver_of, is_register, node_at, system_of};
ghost use Rattle.eq_bits.specs.inner.Computing.{HasComputed};

use crate::node::Node;
use crate::part::Part;
use eq_base::Memory;
use eq_model::laws::computed;
use std::alloc::Global;
use std::marker::Model;
use std::mem::swap;

/// Room for the values of a part's nodes. Contracts see a list of truth values, one for each node.
#[derive(Debug, Drop)]
pub struct Scratch {
    values: Vec<bool>,
    /// Room for the values of the cycle before.
    before: Vec<bool>,
}

impl Model for Scratch {
    ghost use Rattle.std.specs.Prelude.{◌≡◌, Bool, List, length};

    ghost Value = { List Bool };

    ghost view = { λ s. s.values.items };

    ghost invariant = { λ s. length s.before.items ≡ length s.values.items };
}

/// The value of node m, where `now` has the values of all nodes before it, and `given` is what it is given.
fn value(node: Node, m: usize, now: &[bool], given: bool) -> bool
    requires node { IsNode (length now.now) m node }
    requires before { m < length now.now }
    ensures { result ≡ compute (driver_of node) (values now.now) given }
{
    match node {
        Node::Const(bit) => bit,
        Node::Input(_) => given,
        Node::Not(a) => !now[a as usize],
        Node::And(a, b) => now[a as usize] && now[b as usize],
        Node::Xor(a, b) => now[a as usize] != now[b as usize],
        Node::Mux(s, a, b) => {
            if now[s as usize] {
                now[a as usize]
            } else {
                now[b as usize]
            }
        }
        Node::Buf(a) => now[a as usize],
        Node::Reg { .. } => given,
    }
}

/// What a node is given in a cycle with these registers: a register what stands at its place among them.
fn given_registers(node: Node, inputs: &[bool], regs: &[bool], place: usize) -> bool
    requires input { NamesInput (length inputs.now) node }
    requires place { is_register node ≡ true → place < length regs.now }
    ensures { result ≡ held (values inputs.now) (λ next. values regs.now place) node }
{
    match node {
        Node::Input(i) => inputs[i as usize],
        Node::Reg { .. } => regs[place],
        _ => false,
    }
}

/// What node m is given in a cycle after one with the values `before`: a register what its next node had there.
fn given_before(node: Node, m: usize, inputs: &[bool], before: &[bool]) -> bool
    requires node { IsNode (length before.now) m node }
    requires input { NamesInput (length inputs.now) node }
    ensures { result ≡ held (values inputs.now) (values before.now) node }
{
    match node {
        Node::Input(i) => inputs[i as usize],
        Node::Reg { next, .. } => before[next as usize],
        _ => false,
    }
}

impl Scratch {
    pub fn new(alloc: Global, part: &Part) -> Result<Scratch, Memory>
        ensures { IfOk result (λ scratch. scratch ≡ replicate (length part.now.nodes) false) }
    {
        let size = part.nodes.len();
        Ok(Scratch {
            values: vec![in alloc; false; size]?,
            before: vec![in alloc; false; size]?,
        })
    }

    /// The value of the node of this number.
    pub fn value(&self, node: u32) -> bool
        requires { node < length self.now }
        ensures { result ≡ values self.now node }
    {
        self.values[node as usize]
    }

    /// Gives all nodes their values in a cycle with these registers, in the order of the nodes, and these inputs.
    pub(crate) fn begin(&mut self, nodes: &[Node], regs: &[bool], inputs: &[bool])
        requires nodes { AreNodes nodes.now }
        requires inputs { AllNameInputs (length inputs.now) nodes.now }
        requires regs { length regs.now ≡ register_count nodes.now }
        requires size { length self.old ≡ length nodes.now }
        ensures size { length self.new ≡ length self.old }
        ensures computed { HasComputed nodes.now (values_with nodes.now regs.now inputs.now)
            (length nodes.now) self.new }
    {
        let mut place = 0;
        for (m, node) in nodes.iter().enumerate() {
            let given = given_registers(*node, inputs, regs, place);
            self.values[m] = value(*node, m, &self.values, given);
            if node.is_register() {
                place += 1;
            }
        }
    }

    /// Gives all nodes their values in the cycle after the one whose values are there, with these inputs.
    pub(crate) fn follow(&mut self, nodes: &[Node], inputs: &[bool])
        requires nodes { AreNodes nodes.now }
        requires inputs { AllNameInputs (length inputs.now) nodes.now }
        requires size { length self.old ≡ length nodes.now }
        ensures size { length self.new ≡ length self.old }
        ensures computed { HasComputed nodes.now (values_after nodes.now (values self.old) inputs.now)
            (length nodes.now) self.new }
    {
        swap(&mut self.values, &mut self.before);
        for (m, node) in nodes.iter().enumerate() {
            let given = given_before(*node, m, inputs, &self.before);
            self.values[m] = value(*node, m, &self.values, given);
        }
    }
}

/// Gives the nodes their values in a cycle in which the registers, in the order of the nodes, and the inputs have these.
pub fn eval(part: &Part, regs: &[bool], inputs: &[bool], scratch: &mut Scratch)
    requires regs { length regs.now ≡ register_count part.now.nodes }
    requires inputs { length inputs.now ≡ length part.now.inputs }
    requires scratch { length scratch.old ≡ length part.now.nodes }
    ensures size { length scratch.new ≡ length scratch.old }
    ensures cycle { Cycle (system_of part.now.nodes) nothing
        (values_with part.now.nodes regs.now inputs.now) (values scratch.new) }
{
    computed();
    scratch.begin(part.nodes.as_slice(), regs, inputs);
}

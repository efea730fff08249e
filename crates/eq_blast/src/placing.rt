//! New nodes for the nodes of a plan, made one by one, each behind the new nodes of its operands.

ghost use Rattle.std.specs.Prelude.{◌≡◌, ℕ, ◌+◌, ◌-◌, ◌<◌, ◌^◌, true, false, None, OnOk, IfOk, length};
ghost use Rattle.std.specs.Option.{ForSome};
ghost use Rattle.eq_bits.specs.Node.{IsNode, is_register, node_at};
ghost use Rattle.eq_blast.specs.inner.Sorting.{IsCopyAdded, IsWithin, is_made, new_of, renamed, waits_for};
ghost use Rattle.eq_blast.specs.inner.Underway.{IsUnderway, WasTried};

use eq_base::Memory;
use eq_bits::{Builder, Node};

/// The new nodes, for each node of the plan the number of the new one, and how many aren't made.
#[derive(Drop)]
pub struct Placing {
    pub builder: Builder,
    pub places: Vec<Option<u32>>,
    pub left: u32,
}

/// Whether a node is made.
fn is_made(places: &[Option<u32>], m: u32) -> bool
    requires { m < length places.now }
    ensures { result ≡ is_made places.now m }
{
    match places[m as usize] {
        Some(_) => true,
        None => false,
    }
}

/// The new node of a node, and 0 where it isn't made.
pub fn new_of(places: &[Option<u32>], m: u32) -> u32
    requires { m < length places.now }
    ensures { result ≡ new_of places.now m }
{
    match places[m as usize] {
        Some(number) => number,
        None => 0,
    }
}

/// The node itself, unless it is made.
fn open(places: &[Option<u32>], m: u32) -> Option<u32>
    requires { m < length places.now }
    ensures { result ≡ waits_for (is_made places.now) (Node.Buf m) }
{
    if is_made(places, m) { None } else { Some(m) }
}

/// The first operand within a cycle that isn't made.
fn waits_for(places: &[Option<u32>], node: Node) -> Option<u32>
    requires { IsNode (length places.now) (length places.now) node }
    ensures value { result ≡ waits_for (is_made places.now) node }
    ensures operand { ForSome result (λ a. a < length places.now) }
{
    match node {
        Node::Const(_) => None,
        Node::Input(_) => None,
        Node::Not(a) => open(places, a),
        Node::And(a, b) => open(places, a).or(open(places, b)),
        Node::Xor(a, b) => open(places, a).or(open(places, b)),
        Node::Mux(s, a, b) => open(places, s).or(open(places, a).or(open(places, b))),
        Node::Buf(a) => open(places, a),
        Node::Reg { .. } => None,
    }
}

/// The node over the new nodes of its operands.
fn renamed(places: &[Option<u32>], node: Node) -> Node
    requires { IsNode (length places.now) (length places.now) node }
    ensures { result ≡ renamed (new_of places.now) node }
{
    match node {
        Node::Const(bit) => Node::Const(bit),
        Node::Input(i) => Node::Input(i),
        Node::Not(a) => Node::Not(new_of(places, a)),
        Node::And(a, b) => Node::And(new_of(places, a), new_of(places, b)),
        Node::Xor(a, b) => Node::Xor(new_of(places, a), new_of(places, b)),
        Node::Mux(s, a, b) => Node::Mux(new_of(places, s), new_of(places, a), new_of(places, b)),
        Node::Buf(a) => Node::Buf(new_of(places, a)),
        Node::Reg { next, init } => Node::Reg {
            next: new_of(places, next),
            init,
        },
    }
}

/// Appends a node over the new nodes of its operands, and a register with itself as its next node for the time being.
fn append(builder: &mut Builder, places: &[Option<u32>], node: Node) -> Result<u32, Memory>
    requires within { IsNode (length places.now) (length places.now) node }
    requires operands { is_register node ≡ false →
        IsNode (length builder.old) (length builder.old) (renamed (new_of places.now) node) }
    requires room { length builder.old < 2 ^ 32 - 1 }
    ensures { IfOk result (λ number.
        IsCopyAdded (new_of places.now) node builder.old builder.new number) }
{
    match node {
        Node::Reg { init, .. } => builder.register(init),
        _ => builder.node(renamed(places, node)),
    }
}

impl Placing {
    /// Makes a node whose operands are made.
    fn make(&mut self, plan: &[Node], m: u32) -> Result<(), Memory>
        requires placing { IsUnderway plan.now self.old }
        requires within { IsWithin plan.now }
        requires few { length plan.now < 2 ^ 32 }
        requires node { m < length plan.now }
        requires open { is_made self.old.places.items m ≡ false }
        requires ready { waits_for (is_made self.old.places.items) (node_at plan.now m) ≡ None }
        ensures ok { OnOk result (IsUnderway plan.now self.new) }
        ensures fewer { OnOk result (self.new.left + 1 ≡ self.old.left) }
    {
        let number = append(&mut self.builder, &self.places, plan[m as usize])?;
        self.places[m as usize] = Some(number);
        self.left -= 1;
        Ok(())
    }

    /// Makes a node where it isn't made yet and none of its operands within a cycle is missing. Answers one that is.
    pub fn advance(&mut self, plan: &[Node], m: u32) -> Result<Option<u32>, Memory>
        requires placing { IsUnderway plan.now self.old }
        requires within { IsWithin plan.now }
        requires few { length plan.now < 2 ^ 32 }
        requires node { m < length plan.now }
        ensures ok { OnOk result (IsUnderway plan.now self.new) }
        ensures tried { OnOk result (WasTried plan.now self.old self.new m) }
        ensures operand { IfOk result (λ waits. ForSome waits (λ a. a < length plan.now)) }
    {
        if is_made(&self.places, m) {
            return Ok(None);
        }
        let waits = waits_for(&self.places, plan[m as usize]);
        if waits.is_none() {
            self.make(plan, m)?;
        }
        Ok(waits)
    }
}

//! The nodes of a cone made again in a part, behind the nodes of its inputs.

ghost use Rattle.std.specs.Prelude.{◌≡◌, ℕ, ◌+◌, ◌-◌, ◌<◌, ◌≤◌, ◌^◌, true, false, cond, nat_eq, Contains, Some, None, OnOk, IfOk, List, length};
ghost use Rattle.eq_model.specs.System.{IsInput};
ghost use Rattle.eq_bits.specs.Node.{IsNode, driver_of, is_register, node_at};
ghost use Rattle.eq_cone.specs.inner.Cones.{IsPlace, number_at};
ghost use Rattle.eq_cone.specs.inner.Copying.{AreInputNodes, IsCopyMade, IsMadeOf, IsStopMade, new_of, number_or_zero, place_of, renamed};
ghost use Rattle.eq_cone.specs.inner.Sides.{AreSides, cut_of, has_complement, nodes_of};
ghost use Rattle.eq_cone.specs.inner.Underway.{IsLinking, IsToCopy, IsCopying};

use crate::numbers::Numbers;
use crate::sides::Sides;
use eq_base::Memory;
use eq_bits::{Builder, Node};
use std::alloc::Global;
use std::collections::HashMap;

/// The part's nodes, and for each node of the cone the one that stands for it.
#[derive(Drop)]
pub struct Copied {
    pub builder: Builder,
    pub places: HashMap<u32, u32>,
}

/// The node that stands for a node, and 0 where there is none.
pub fn new_of(places: &HashMap<u32, u32>, m: u32) -> u32
    ensures { result ≡ new_of (place_of places.now) m }
{
    match places.get(&m).copied() {
        Some(number) => number,
        None => 0,
    }
}

/// Sets the node that stands for a node.
fn put(places: &mut HashMap<u32, u32>, m: u32, number: u32) -> Result<(), Memory>
    ensures { OnOk result ((x : ℕ) →
        place_of places.new x ≡ cond (nat_eq m x) (Some number) (place_of places.old x)) }
{
    places.insert(m, number)?;
    Ok(())
}

/// The node over the nodes that stand for its operands.
fn renamed(places: &HashMap<u32, u32>, node: Node) -> Node
    ensures { result ≡ renamed (new_of (place_of places.now)) node }
{
    match node {
        Node::Const(bit) => Node::Const(bit),
        Node::Input(i) => Node::Input(i),
        Node::Not(a) => Node::Not(new_of(places, a)),
        Node::And(a, b) => Node::And(new_of(places, a), new_of(places, b)),
        Node::Xor(a, b) => Node::Xor(new_of(places, a), new_of(places, b)),
        Node::Mux(s, a, b) => Node::Mux(new_of(places, s), new_of(places, a), new_of(places, b)),
        Node::Buf(a) => Node::Buf(new_of(places, a)),
        Node::Reg { next, init } => Node::Reg {
            next: new_of(places, next),
            init,
        },
    }
}

/// A builder with the nodes of so many inputs.
fn input_nodes(alloc: Global, count: usize) -> Result<Builder, Memory>
    requires { count ≤ 4000000 }
    ensures nodes { IfOk result (λ builder. AreInputNodes builder count) }
    ensures count { IfOk result (λ builder. length builder ≡ count) }
{
    let mut builder = Builder::new(alloc)?;
    for input in 0..count as u32 {
        builder.node(Node::Input(input))?;
    }
    Ok(builder)
}

/// A copy of a node, and a register with itself as its next node for the time being.
fn append(builder: &mut Builder, places: &HashMap<u32, u32>, node: Node) -> Result<u32, Memory>
    requires operands { is_register node ≡ false → IsNode (length builder.old) (length builder.old)
        (renamed (new_of (place_of places.now)) node) }
    requires room { length builder.old < 2 ^ 32 - 1 }
    ensures { IfOk result (λ number.
        IsCopyMade (new_of (place_of places.now)) node builder.old builder.new number) }
{
    match node {
        Node::Reg { init, .. } => builder.register(init),
        _ => builder.node(renamed(places, node)),
    }
}

/// The number of the input that stands for a pair.
fn input_of(inputs: &Numbers, pair: u32) -> u32
    requires few { length inputs.now ≤ 4000000 }
    requires there { Contains inputs.now pair }
    ensures { IsPlace inputs.now pair result }
{
    match inputs.find(pair) {
        Some(place) => place as u32,
        None => 0,
    }
}

/// The input of the pair at which node m is cut, negated where the node has the complement of the pair's value.
fn stop(
    builder: &mut Builder,
    sides: &Sides<'_>,
    inputs: &Numbers,
    m: u32,
    pair: u32,
) -> Result<u32, Memory>
    requires sides { AreSides sides.now }
    requires few { length inputs.now ≤ 4000000 }
    requires pair { pair < length sides.now.owners.now }
    requires there { Contains inputs.now pair }
    requires nodes { AreInputNodes builder.old (length inputs.now) }
    requires room { length builder.old < 2 ^ 32 - 1 }
    ensures { IfOk result (λ number.
        IsStopMade inputs.now (has_complement sides.now m pair) pair builder.old builder.new number) }
{
    let input = input_of(inputs, pair);
    if sides.has_complement(m, pair) {
        builder.node(Node::Not(input))
    } else {
        Ok(input)
    }
}

/// A node that stands for node m.
fn make(
    builder: &mut Builder,
    places: &HashMap<u32, u32>,
    sides: &Sides<'_>,
    inputs: &Numbers,
    m: u32,
) -> Result<u32, Memory>
    requires sides { AreSides sides.now }
    requires node { m < length (nodes_of sides.now) }
    requires few { length inputs.now ≤ 4000000 }
    requires noted { (i : ℕ) → cut_of sides.now m ≡ Some i → Contains inputs.now i }
    requires operands { cut_of sides.now m ≡ None →
        is_register (node_at (nodes_of sides.now) m) ≡ false →
        IsNode (length builder.old) (length builder.old)
        (renamed (new_of (place_of places.now)) (node_at (nodes_of sides.now) m)) }
    requires uncut { cut_of sides.now m ≡ None →
        ¬ IsInput (driver_of (node_at (nodes_of sides.now) m)) }
    requires nodes { AreInputNodes builder.old (length inputs.now) }
    requires room { length builder.old < 2 ^ 32 - 1 }
    ensures { IfOk result (λ number. IsMadeOf (nodes_of sides.now) (cut_of sides.now)
        (has_complement sides.now) inputs.now (place_of places.now) m builder.old builder.new number) }
{
    match sides.cut(m) {
        Some(pair) => stop(builder, sides, inputs, m, pair),
        None => append(builder, places, sides.node(m)),
    }
}

impl Copied {
    /// Copies the node at a place of the cone.
    fn advance(
        &mut self,
        sides: &Sides<'_>,
        cone: &Numbers,
        inputs: &Numbers,
        place: usize,
    ) -> Result<(), Memory>
        requires task { (roots : List ℕ) × IsToCopy sides.now roots cone.now inputs.now }
        requires underway { IsCopying sides.now cone.now inputs.now self.old place }
        requires place { place < length cone.now }
        ensures { OnOk result (
            IsCopying sides.now cone.now inputs.now self.new (place + 1)) }
    {
        let m = cone.at(place);
        let number = make(&mut self.builder, &self.places, sides, inputs, m)?;
        put(&mut self.places, m, number)
    }

    /// Copies all nodes of the cone.
    fn copy(&mut self, sides: &Sides<'_>, cone: &Numbers, inputs: &Numbers) -> Result<(), Memory>
        requires task { (roots : List ℕ) × IsToCopy sides.now roots cone.now inputs.now }
        requires begun { IsCopying sides.now cone.now inputs.now self.old 0 }
        ensures { OnOk result (
            IsCopying sides.now cone.now inputs.now self.new (length cone.now)) }
    {
        for place in 0..cone.len() {
            self.advance(sides, cone, inputs, place)?;
        }
        Ok(())
    }

    /// Gives the copy of a register its next node.
    fn link(&mut self, sides: &Sides<'_>, cone: &Numbers, inputs: &Numbers, place: usize)
        requires task { (roots : List ℕ) × IsToCopy sides.now roots cone.now inputs.now }
        requires linking { IsLinking sides.now cone.now inputs.now self.old place }
        requires place { place < length cone.now }
        ensures { IsLinking sides.now cone.now inputs.now self.new (place + 1) }
    {
        let m = cone.at(place);
        if let None = sides.cut(m) {
            if let Node::Reg { next, .. } = sides.node(m) {
                let register = new_of(&self.places, m);
                let next = new_of(&self.places, next);
                self.builder.set_next(register, next);
            }
        }
    }

    /// Gives the copies of all registers their next nodes.
    fn link_all(&mut self, sides: &Sides<'_>, cone: &Numbers, inputs: &Numbers)
        requires task { (roots : List ℕ) × IsToCopy sides.now roots cone.now inputs.now }
        requires made { IsCopying sides.now cone.now inputs.now self.old (length cone.now) }
        ensures { IsLinking sides.now cone.now inputs.now self.new (length cone.now) }
    {
        for place in 0..cone.len() {
            self.link(sides, cone, inputs, place);
        }
    }
}

/// The cone's nodes in a part, whose first nodes are its inputs.
pub fn copy(
    alloc: Global,
    sides: &Sides<'_>,
    cone: &Numbers,
    inputs: &Numbers,
) -> Result<Copied, Memory>
    requires { (roots : List ℕ) × IsToCopy sides.now roots cone.now inputs.now }
    ensures { IfOk result (λ copied.
        IsLinking sides.now cone.now inputs.now copied (length cone.now)) }
{
    let mut copied = Copied {
        builder: input_nodes(alloc, inputs.len())?,
        places: HashMap::new(alloc),
    };
    copied.copy(sides, cone, inputs)?;
    copied.link_all(sides, cone, inputs);
    Ok(copied)
}

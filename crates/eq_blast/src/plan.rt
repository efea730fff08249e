//! The plan of a graph: the wired nodes, with the own node of each bit in the place of its input.

ghost use Rattle.std.specs.Prelude.{◌≡◌, ℕ, ◌≤◌, ◌<◌, ◌^◌, IfOk, length, map};
ghost use Rattle.eq_bits.specs.Node.{AllNameInputs, NamesInput};
ghost use Rattle.eq_net.specs.Net.{bits_of};
ghost use Rattle.eq_net.specs.Whole.{parts_of};
ghost use Rattle.eq_blast.specs.Blasted.{inputs_before, one_if_input};
ghost use Rattle.eq_blast.specs.inner.Planned.{AreOwn, IsPlan, own_node, planned};
ghost use Rattle.eq_blast.specs.inner.Wiring.{IsWired};

use crate::wiring::Wired;
use eq_base::Memory;
use eq_bits::Node;
use eq_net::{Driver, Net};
use std::alloc::Global;

/// The own node of a bit with this driver, behind as many bits of inputs, where this node drives it.
fn own_node(driver: Driver, inputs: u32, drive: u32) -> Node
    ensures { result ≡ own_node driver inputs drive }
{
    match driver {
        Driver::Input => Node::Input(inputs),
        Driver::Undriven => Node::Buf(drive),
        Driver::Expr { .. } => Node::Buf(drive),
        Driver::Reg { init, .. } => Node::Reg { next: drive, init },
    }
}

/// 1 for a bit of an input.
fn one_if_input(driver: Driver) -> u32
    ensures value { result ≡ one_if_input driver }
    ensures few { result ≤ 1 }
{
    match driver {
        Driver::Input => 1,
        Driver::Undriven => 0,
        Driver::Expr { .. } => 0,
        Driver::Reg { .. } => 0,
    }
}

/// The own nodes of all bits, in order.
fn own_nodes(alloc: Global, net: &Net, drives: &[u32]) -> Result<Vec<Node>, Memory>
    requires { length drives.now ≡ bits_of net.now.nets }
    ensures { IfOk result (λ own.
        AreOwn (parts_of net.now) drives.now (bits_of net.now.nets) own.items) }
{
    let mut own = Vec::with_capacity(alloc, drives.len())?;
    let mut inputs = 0;
    for (b, driver) in net.drivers.as_slice().iter().enumerate() {
        own.push(own_node(*driver, inputs, drives[b]))?;
        inputs += one_if_input(*driver);
    }
    Ok(own)
}

/// The own node in place of a bit's node, and any other node as it is.
fn planned(own: &[Node], node: Node) -> Node
    requires { NamesInput (length own.now) node }
    ensures { result ≡ planned own.now node }
{
    match node {
        Node::Input(b) => own[b as usize],
        _ => node,
    }
}

/// The nodes with the own nodes in place of the bits' nodes.
fn all_planned(alloc: Global, nodes: &[Node], own: &[Node]) -> Result<Vec<Node>, Memory>
    requires { AllNameInputs (length own.now) nodes.now }
    ensures { IfOk result (λ plan. plan.items ≡ map (planned own.now) nodes.now) }
{
    let mut plan = Vec::with_capacity(alloc, nodes.len())?;
    for node in nodes {
        plan.push(planned(own, *node))?;
    }
    Ok(plan)
}

/// The plan of a net whose words are wired.
pub fn plan(alloc: Global, net: &Net, wired: &Wired) -> Result<Vec<Node>, Memory>
    requires { IsWired (parts_of net.now) wired.now.nodes wired.now.drives }
    ensures { IfOk result (λ plan.
        IsPlan (parts_of net.now) wired.now.nodes wired.now.drives plan.items) }
{
    let own = own_nodes(alloc, net, wired.drives.as_slice())?;
    all_planned(alloc, wired.nodes.as_slice(), &own)
}

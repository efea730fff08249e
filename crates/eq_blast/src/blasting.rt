//! The graph of a netlist, in two steps.

ghost use Rattle.std.specs.Prelude.{◌≤◌, IfOk, length};
ghost use Rattle.eq_bits.specs.Node.{AreNodes};
ghost use Rattle.eq_bits.specs.Shared.{Shared};
ghost use Rattle.eq_net.specs.Whole.{parts_of};
ghost use Rattle.eq_blast.specs.Blasted.{IsBlasted};

use crate::order::order;
use crate::wiring::wire;
use eq_base::Memory;
use eq_bits::Graph;
use eq_net::Net;
use std::alloc::Global;

/// The graph of a netlist, with no more nodes than the netlist costs, each behind those that it reads within a cycle. No gate
/// stands twice, and each bit has a node of its own.
pub fn blast(alloc: Global, net: &Net) -> Result<Graph, Memory>
    ensures ok { IfOk result (λ g. IsBlasted (parts_of net.now) g.nodes g.bits) }
    ensures operands { IfOk result (λ g. AreNodes g.nodes) }
    ensures shared { IfOk result (λ g. Shared g.nodes) }
    ensures bound { IfOk result (λ g. length g.nodes ≤ net.now.cost) }
{
    let wired = wire(alloc, net)?;
    order(alloc, net, &wired)
}

//! The graph of a net whose words are wired: the wired nodes again, each behind what it reads, with the own nodes of bits.

ghost use Rattle.std.specs.Prelude.{◌≡◌, ℕ, ◌+◌, ◌≤◌, ◌<◌, ◌^◌, IfOk, length};
ghost use Rattle.eq_bits.specs.Node.{AreNodes};
ghost use Rattle.eq_bits.specs.Shared.{Shared};
ghost use Rattle.eq_net.specs.Net.{bits_of};
ghost use Rattle.eq_net.specs.Whole.{parts_of};
ghost use Rattle.eq_blast.specs.Blasted.{IsBlasted};
ghost use Rattle.eq_blast.specs.inner.Planned.{AreOwnNumbers, IsPlan};
ghost use Rattle.eq_blast.specs.inner.Sorting.{IsGrounded, IsWithin};
ghost use Rattle.eq_blast.specs.inner.Underway.{IsDone};
ghost use Rattle.eq_blast.specs.inner.Wiring.{IsWired};

use crate::placing::{Placing, new_of};
use crate::plan::plan;
use crate::sorting::sort;
use crate::wiring::Wired;
use eq_base::Memory;
use eq_bits::{Graph, Node, NodeIds};
use eq_model::laws::heights;
use eq_net::Net;
use eq_net::laws::net_is_design;
use std::alloc::Global;

/// The numbers of the bits' own nodes.
fn own_numbers(alloc: Global, places: &[Option<u32>], bits: u32) -> Result<NodeIds, Memory>
    requires room { 2 + bits ≤ length places.now }
    requires few { length places.now < 2 ^ 32 }
    ensures { IfOk result (λ own. AreOwnNumbers places.now bits own) }
{
    let mut own = NodeIds::new(alloc);
    for b in 0..bits {
        own.push(new_of(places, 2 + b))?;
    }
    Ok(own)
}

/// The graph of the new nodes.
fn graph(alloc: Global, placing: Placing, bits: u32) -> Result<Graph, Memory>
    requires room { 2 + bits ≤ length placing.places.items }
    requires few { length placing.places.items < 2 ^ 32 }
    ensures nodes { IfOk result (λ g. g.nodes ≡ placing.builder) }
    ensures bits { IfOk result (λ g. AreOwnNumbers placing.places.items bits g.bits) }
    ensures operands { IfOk result (λ g. AreNodes g.nodes) }
    ensures shared { IfOk result (λ g. Shared g.nodes) }
{
    let Placing {
        builder,
        places,
        ..
    } = placing;
    let bits = own_numbers(alloc, &places, bits)?;
    Ok(Graph {
        nodes: builder.finish(),
        bits,
    })
}

/// The plan can be sorted.
fn sorted(alloc: Global, net: &Net, wired: &Wired, plan: &[Node]) -> Result<Placing, Memory>
    requires wired { IsWired (parts_of net.now) wired.now.nodes wired.now.drives }
    requires plan { IsPlan (parts_of net.now) wired.now.nodes wired.now.drives plan.now }
    ensures { IfOk result (λ p. IsDone plan.now p) }
{
    heights();
    net_is_design();
    sort(alloc, plan)
}

/// The graph of the net, no larger than the wired nodes.
pub fn order(alloc: Global, net: &Net, wired: &Wired) -> Result<Graph, Memory>
    requires wired { IsWired (parts_of net.now) wired.now.nodes wired.now.drives }
    ensures ok { IfOk result (λ g. IsBlasted (parts_of net.now) g.nodes g.bits) }
    ensures operands { IfOk result (λ g. AreNodes g.nodes) }
    ensures shared { IfOk result (λ g. Shared g.nodes) }
    ensures bound { IfOk result (λ g. length g.nodes ≤ length wired.now.nodes) }
{
    net_is_design();
    let plan = plan(alloc, net, wired)?;
    let placing = sorted(alloc, net, wired, &plan)?;
    graph(alloc, placing, net.bits())
}

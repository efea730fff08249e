//! The nodes from which edges lead back to a bit, each with a rank and with an edge to a node of a smaller rank. They are ranked
//! edge by edge: first in the order of a walk in breadth, then in rounds over all edges until one ranks nothing, which the
//! first does where the walk was right.

ghost use Rattle.std.specs.Prelude.{◌≡◌, ℕ, ◌<◌, IfOk, OnOk, false, length, replicate, true};
ghost use Rattle.eq_reads.specs.Graph.{AreBetween};
ghost use Rattle.eq_loops.specs.inner.Back.{AreClosed, IsClosedAt, LeadBack, unranked};

use crate::links::{End, link_all};
use crate::numbers::add;
use crate::spreading::spread_back;
use eq_base::Memory;
use eq_reads::Edge;
use std::alloc::Global;

/// For each node its rank, 0 where it has none, and the edge to a node of a smaller rank.
#[derive(Debug, Drop)]
pub struct Back {
    pub ranks: Vec<usize>,
    pub vias: Vec<usize>,
}

/// Ranks the node that an edge begins at, where it has no rank and the edge leads to one that has.
fn rank(edges: &[Edge], e: usize, ranks: &mut [usize], vias: &mut [usize]) -> Result<bool, Memory>
    requires there { e < length edges.now }
    requires between { AreBetween (length ranks.old) edges.now }
    requires size { length vias.old ≡ length ranks.old }
    ensures kept { IfOk result (λ moved. (b : ℕ) → LeadBack edges.now b ranks.old vias.old →
        LeadBack edges.now b ranks.new vias.new) }
    ensures stays { IfOk result (λ moved. moved ≡ false → ranks.new ≡ ranks.old) }
    ensures closed { IfOk result (λ moved. moved ≡ false → IsClosedAt edges.now ranks.new e) }
    ensures fewer { IfOk result (λ moved. moved ≡ true →
        unranked ranks.new < unranked ranks.old) }
{
    let edge = edges[e];
    let next = ranks[edge.to];
    if next == 0 || ranks[edge.from] > 0 {
        return Ok(false);
    }
    ranks[edge.from] = add(next, 1)?;
    vias[edge.from] = e;
    Ok(true)
}

/// Ranks nodes edge by edge in an order.
fn rank_in_order(
    edges: &[Edge],
    order: &[usize],
    ranks: &mut [usize],
    vias: &mut [usize],
) -> Result<(), Memory>
    requires between { AreBetween (length ranks.old) edges.now }
    requires size { length vias.old ≡ length ranks.old }
    ensures kept { OnOk result ((b : ℕ) → LeadBack edges.now b ranks.old vias.old →
        LeadBack edges.now b ranks.new vias.new) }
{
    for e in order {
        if *e < edges.len() {
            let _moved = rank(edges, *e, ranks, vias)?;
        }
    }
    Ok(())
}

/// Ranks nodes over all edges in turn, and says whether there was one to rank.
fn rank_once(edges: &[Edge], ranks: &mut [usize], vias: &mut [usize]) -> Result<bool, Memory>
    requires between { AreBetween (length ranks.old) edges.now }
    requires size { length vias.old ≡ length ranks.old }
    ensures kept { IfOk result (λ moved. (b : ℕ) → LeadBack edges.now b ranks.old vias.old →
        LeadBack edges.now b ranks.new vias.new) }
    ensures closed { IfOk result (λ moved. moved ≡ false →
        AreClosed edges.now ranks.new (length edges.now)) }
    ensures fewer { IfOk result (λ moved. moved ≡ true →
        unranked ranks.new < unranked ranks.old) }
{
    let mut moved = false;
    for e in 0..edges.len() {
        if rank(edges, e, ranks, vias)? {
            moved = true;
        }
    }
    Ok(moved)
}

/// Ranks nodes until all edges that lead to a node with a rank begin at one.
fn rank_all(edges: &[Edge], ranks: &mut [usize], vias: &mut [usize]) -> Result<(), Memory>
    requires between { AreBetween (length ranks.old) edges.now }
    requires size { length vias.old ≡ length ranks.old }
    ensures kept { OnOk result ((b : ℕ) → LeadBack edges.now b ranks.old vias.old →
        LeadBack edges.now b ranks.new vias.new) }
    ensures closed { OnOk result (AreClosed edges.now ranks.new (length edges.now)) }
{
    while rank_once(edges, ranks, vias)? {}
    Ok(())
}

/// The edges over which a walk in breadth against them reaches nodes from one.
fn back_order(alloc: Global, nodes: usize, edges: &[Edge], b: usize) -> Result<Vec<usize>, Memory> {
    let links = link_all(alloc, nodes, edges, End::To)?;
    let mut roots = Vec::new(alloc);
    roots.push(b)?;
    let reached = spread_back(alloc, nodes, edges, &links, roots)?;
    Ok(reached.order)
}

/// As many numbers as there are nodes, all 0.
fn zeros(alloc: Global, nodes: usize) -> Result<Vec<usize>, Memory>
    ensures { IfOk result (λ numbers. numbers.items ≡ replicate nodes 0) }
{
    vec![in alloc; 0; nodes]
}

/// Ranks the nodes from which edges lead back to a node, where none has a rank yet.
fn rank_back(
    edges: &[Edge],
    order: &[usize],
    b: usize,
    ranks: &mut [usize],
    vias: &mut [usize],
) -> Result<(), Memory>
    requires there { b < length ranks.old }
    requires between { AreBetween (length ranks.old) edges.now }
    requires none { ranks.old ≡ replicate (length ranks.old) 0 }
    requires size { length vias.old ≡ length ranks.old }
    ensures back { OnOk result (LeadBack edges.now b ranks.new vias.new) }
    ensures closed { OnOk result (AreClosed edges.now ranks.new (length edges.now)) }
{
    ranks[b] = 1;
    rank_in_order(edges, order, ranks, vias)?;
    rank_all(edges, ranks, vias)?;
    Ok(())
}

/// The nodes from which edges lead back to a node.
pub fn lead_back(alloc: Global, nodes: usize, edges: &[Edge], b: usize) -> Result<Back, Memory>
    requires there { b < nodes }
    requires between { AreBetween nodes edges.now }
    ensures back { IfOk result (λ back.
        LeadBack edges.now b back.ranks.items back.vias.items) }
    ensures closed { IfOk result (λ back.
        AreClosed edges.now back.ranks.items (length edges.now)) }
{
    let order = back_order(alloc, nodes, edges, b)?;
    let mut ranks = zeros(alloc, nodes)?;
    let mut vias = zeros(alloc, nodes)?;
    rank_back(edges, &order, b, &mut ranks, &mut vias)?;
    Ok(Back { ranks, vias })
}

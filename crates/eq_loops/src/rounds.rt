//! The round of bits through a bit, or that there is none.

ghost use Rattle.std.specs.Prelude.{◌≡◌, ℕ, ◌+◌, ◌<◌, ◌≤◌, ◌^◌, [], ◌∷◌, ◌++◌, None, IfOk, IfSome, OnOk, length, slice_index};
ghost use Rattle.eq_model.specs.System.{System};
ghost use Rattle.eq_reads.specs.Graph.{AreBetween, Joins, to_at};
ghost use Rattle.eq_loops.specs.inner.Back.{HasNoEntry, IsClear, IsFirstRound, IsRound, IsSoundFor, LeadBack, AreClear};

use crate::back::{Back, lead_back};
use crate::numbers::number_in;
use eq_base::Memory;
use eq_reads::Edge;
use std::alloc::Global;

/// A node with a rank that an edge leads to.
fn entry_of(edges: &[Edge], ranks: &[usize], b: usize) -> Option<usize>
    ensures joined { IfSome result (λ x. Joins edges.now b x) }
    ensures ranked { IfSome result (λ x. 0 < slice_index ranks.now x) }
    ensures none { result ≡ None → HasNoEntry edges.now ranks.now b }
{
    for edge in edges {
        if edge.from == b && number_in(ranks, edge.to) > 0 {
            return Some(edge.to);
        }
    }
    None
}

/// Puts a node at the end of a round, if it is a bit.
fn put_bit(node: usize, bits: usize, round: &mut Vec<u32>) -> Result<(), Memory>
    requires { bits < 2 ^ 32 }
    ensures bit { OnOk result (node < bits →
        round.new.items ≡ round.old.items ++ (node ∷ [])) }
    ensures inner { OnOk result (bits ≤ node → round.new.items ≡ round.old.items) }
{
    if node < bits {
        round.push(node as u32)?;
    }
    Ok(())
}

/// The node that the edge of a node leads to.
fn onward(edges: &[Edge], vias: &[usize], node: usize) -> usize
    requires { slice_index vias.now node < length edges.now }
    ensures { result ≡ to_at edges.now (slice_index vias.now node) }
{
    edges[number_in(vias, node)].to
}

/// The bits on the way back from a node that bit b leads to.
fn trace(
    alloc: Global,
    edges: &[Edge],
    bits: usize,
    b: usize,
    entry: usize,
    back: &Back,
) -> Result<Vec<u32>, Memory>
    requires few { bits < 2 ^ 32 }
    requires bit { b < bits }
    requires back { LeadBack edges.now b back.now.ranks.items back.now.vias.items }
    requires joined { Joins edges.now b entry }
    requires ranked { 0 < slice_index back.now.ranks.items entry }
    ensures { IfOk result (λ round. (s : System) → IsSoundFor s edges.now bits →
        IsRound s bits b round.items) }
{
    let mut round = Vec::new(alloc);
    round.push(b as u32)?;
    let mut node = entry;
    while number_in(&back.ranks, node) > 1 {
        put_bit(node, bits, &mut round)?;
        node = onward(edges, &back.vias, node);
    }
    Ok(round)
}

/// A round of bits through a bit, if there is one.
fn round_at(
    alloc: Global,
    nodes: usize,
    edges: &[Edge],
    bits: usize,
    b: usize,
) -> Result<Option<Vec<u32>>, Memory>
    requires few { bits < 2 ^ 32 }
    requires bit { b < bits }
    requires bits { bits ≤ nodes }
    requires between { AreBetween nodes edges.now }
    ensures found { IfOk result (λ found. IfSome found (λ round. (s : System) →
        IsSoundFor s edges.now bits → IsRound s bits b round.items)) }
    ensures none { IfOk result (λ found. found ≡ None → IsClear edges.now b) }
{
    let back = lead_back(alloc, nodes, edges, b)?;
    match entry_of(edges, &back.ranks, b) {
        Some(entry) => {
            let round = trace(alloc, edges, bits, b, entry, &back)?;
            Ok(Some(round))
        }
        None => Ok(None),
    }
}

/// The round of the first bit from one on that has one.
pub fn first_round(
    alloc: Global,
    nodes: usize,
    edges: &[Edge],
    bits: usize,
    begin: usize,
) -> Result<Option<Vec<u32>>, Memory>
    requires few { bits < 2 ^ 32 }
    requires bits { bits ≤ nodes }
    requires between { AreBetween nodes edges.now }
    requires begin { begin ≤ bits }
    requires clear { AreClear edges.now begin }
    ensures found { IfOk result (λ found. IfSome found (λ round.
        IsFirstRound edges.now bits round.items)) }
    ensures none { IfOk result (λ found. found ≡ None → AreClear edges.now bits) }
{
    for b in begin..bits {
        match round_at(alloc, nodes, edges, bits, b)? {
            Some(round) => return Ok(Some(round)),
            None => {}
        }
    }
    Ok(None)
}

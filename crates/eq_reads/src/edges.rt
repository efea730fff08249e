//! Edges that are added, and numbers of nodes.

ghost use Rattle.std.specs.Prelude.{◌≡◌, ◌+◌, IfOk, OnOk};
ghost use Rattle.eq_reads.specs.Graph.{Adds};

use crate::graph::Edge;
use eq_base::Memory;
use std::alloc::AllocError;

/// Adds an edge.
pub fn push_edge(from: usize, to: usize, edges: &mut Vec<Edge>) -> Result<(), Memory>
    ensures { OnOk result (Adds edges.old.items edges.new.items from (λ b. b ≡ to)) }
{
    edges.push(Edge { from, to })?;
    Ok(())
}

/// The sum, which is a size that no memory has where it is no number of 64 bits.
pub fn add(m: usize, n: usize) -> Result<usize, Memory>
    ensures { IfOk result (λ sum. sum ≡ m + n) }
{
    match m.checked_add(n) {
        Some(sum) => Ok(sum),
        None => Err(AllocError),
    }
}

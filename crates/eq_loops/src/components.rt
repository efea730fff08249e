//! Numbers of the strongly connected components of a graph (Kosaraju's walk). Nothing is promised of the walks, and what they
//! give is tested.

ghost use Rattle.std.specs.Prelude.{◌≡◌, IfOk, false};
ghost use Rattle.eq_loops.specs.Components.{NeverFall};

use crate::finishing::left_order;
use crate::links::{End, link_all};
use crate::numbers::number_in;
use crate::spreading::spread_back;
use eq_base::Memory;
use eq_reads::Edge;
use std::alloc::Global;

/// Whether the numbers fall along an edge.
fn fall(edges: &[Edge], numbers: &[usize]) -> bool
    ensures { result ≡ false → NeverFall edges.now numbers.now }
{
    for edge in edges {
        if number_in(numbers, edge.to) < number_in(numbers, edge.from) {
            return true;
        }
    }
    false
}

/// For each node the number of its component, in time linear in nodes and edges. Two nodes have the same number where each
/// leads to the other, and else different ones; this is not in the contract, which holds of an empty list as well.
pub fn component_numbers(alloc: Global, nodes: usize, edges: &[Edge]) -> Result<Vec<usize>, Memory>
    ensures { IfOk result (λ numbers. NeverFall edges.now numbers.items) }
{
    let links = link_all(alloc, nodes, edges, End::From)?;
    let order = left_order(alloc, nodes, edges, &links)?;
    let back = link_all(alloc, nodes, edges, End::To)?;
    let reached = spread_back(alloc, nodes, edges, &back, order)?;
    if fall(edges, &reached.numbers) {
        return Ok(Vec::new(alloc));
    }
    Ok(reached.numbers)
}

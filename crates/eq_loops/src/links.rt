//! The edges of each node, as chains of links. Nothing is promised of them.

use crate::numbers::number_in;
use eq_base::Memory;
use eq_reads::Edge;
use std::alloc::Global;

/// One of the two nodes of an edge.
#[derive(Clone, Copy, Debug)]
pub enum End {
    From,
    To,
}

/// For each node a chain of links, from the last of its edges down.
#[derive(Debug, Drop)]
pub struct Links {
    /// For each node one more than the number of its last edge, 0 where it has none.
    last: Vec<usize>,
    /// For each edge the same of the edge before it of the same node.
    before: Vec<usize>,
}

impl End {
    fn node(self, edge: Edge) -> usize {
        match self {
            End::From => edge.from,
            End::To => edge.to,
        }
    }
}

impl Links {
    /// The link to the last edge of a node, 0 where it has none.
    pub fn last(&self, node: usize) -> usize {
        number_in(&self.last, node)
    }

    /// The link to the edge before this one.
    pub fn before(&self, edge: usize) -> usize {
        number_in(&self.before, edge)
    }
}

/// The links of all edges, by one of their nodes.
pub fn link_all(alloc: Global, nodes: usize, edges: &[Edge], end: End) -> Result<Links, Memory> {
    let mut last = vec![in alloc; 0; nodes]?;
    let mut before = Vec::with_capacity(alloc, edges.len())?;
    for edge in edges {
        let node = end.node(*edge);
        before.push(number_in(&last, node))?;
        if node < last.len() {
            last[node] = before.len();
        }
    }
    Ok(Links { last, before })
}

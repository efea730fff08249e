//! The order in which a walk in depth leaves the nodes of a graph. Nothing is promised of it.

use crate::links::Links;
use eq_base::Memory;
use eq_reads::Edge;
use std::alloc::Global;

/// A walk in depth.
#[derive(Debug, Drop)]
struct Walk {
    /// The nodes that are entered and not left, each with the link to its next edge.
    entered: Vec<(usize, usize)>,
    seen: Vec<bool>,
    /// The nodes that are left.
    order: Vec<usize>,
    /// The next node that the walk may begin at.
    root: usize,
}

impl Walk {
    /// Enters a node for the first time.
    fn enter(&mut self, links: &Links, node: usize) -> Result<(), Memory> {
        if node < self.seen.len() && !self.seen[node] {
            self.seen[node] = true;
            self.entered.push((node, links.last(node)))?;
        }
        Ok(())
    }

    /// Looks at one edge of a node, or leaves it.
    fn look(
        &mut self,
        node: usize,
        link: usize,
        edges: &[Edge],
        links: &Links,
    ) -> Result<(), Memory> {
        if link == 0 || link > edges.len() {
            self.order.push(node)?;
            return Ok(());
        }
        self.entered.push((node, links.before(link - 1)))?;
        self.enter(links, edges[link - 1].to)
    }

    /// Goes on at the node that was entered last, or begins anew.
    fn turn(&mut self, edges: &[Edge], links: &Links) -> Result<(), Memory> {
        match self.entered.pop() {
            Some((node, link)) => self.look(node, link, edges, links),
            None => {
                let root = self.root;
                self.root = root.saturating_add(1);
                self.enter(links, root)
            }
        }
    }
}

/// The order in which a walk in depth leaves the nodes. Each edge is looked at once, each node is left once, and each may
/// begin the walk.
pub fn left_order(
    alloc: Global,
    nodes: usize,
    edges: &[Edge],
    links: &Links,
) -> Result<Vec<usize>, Memory> {
    let mut walk = Walk {
        entered: Vec::new(alloc),
        seen: vec![in alloc; false; nodes]?,
        order: Vec::with_capacity(alloc, nodes)?,
        root: 0,
    };
    let turns = edges.len().saturating_add(nodes).saturating_add(nodes);
    for _ in 0..turns {
        walk.turn(edges, links)?;
    }
    Ok(walk.order)
}

//! A walk in breadth against the edges of a graph. Nothing is promised of it.

use crate::links::Links;
use eq_base::Memory;
use eq_reads::Edge;
use std::alloc::Global;

/// A walk in breadth against the edges, from one root after another.
#[derive(Debug, Drop)]
pub struct Spread {
    /// The nodes that the walk is to begin at, the next at the end.
    roots: Vec<usize>,
    /// How many roots were taken.
    count: usize,
    /// The nodes that were reached.
    queue: Vec<usize>,
    /// How many of these were visited.
    head: usize,
    /// The link to the next edge of the last of these.
    link: usize,
    /// For each node the count of roots when it was reached, 0 where it wasn't.
    pub numbers: Vec<usize>,
    /// The edges over which nodes were reached.
    pub order: Vec<usize>,
}

impl Spread {
    /// Puts a node into the queue, where it wasn't reached before.
    fn reach(&mut self, node: usize) -> Result<bool, Memory> {
        if node < self.numbers.len() && self.numbers[node] == 0 {
            self.numbers[node] = self.count;
            self.queue.push(node)?;
            return Ok(true);
        }
        Ok(false)
    }

    /// Takes the next root.
    fn begin(&mut self) -> Result<(), Memory> {
        if let Some(root) = self.roots.pop() {
            self.count = self.count.saturating_add(1);
            let _fresh = self.reach(root)?;
        }
        Ok(())
    }

    /// Looks at one edge, visits the next node, or begins anew.
    fn turn(&mut self, edges: &[Edge], links: &Links) -> Result<(), Memory> {
        let link = self.link;
        if link > 0 && link <= edges.len() {
            self.link = links.before(link - 1);
            if self.reach(edges[link - 1].from)? {
                self.order.push(link - 1)?;
            }
            return Ok(());
        }
        if self.head < self.queue.len() {
            self.link = links.last(self.queue[self.head]);
            self.head = self.head.saturating_add(1);
            return Ok(());
        }
        self.begin()
    }
}

/// What is reached against the edges from the roots, the last of them first. Each edge is looked at once, and each node is
/// visited once.
pub fn spread_back(
    alloc: Global,
    nodes: usize,
    edges: &[Edge],
    links: &Links,
    roots: Vec<usize>,
) -> Result<Spread, Memory> {
    let turns = edges
        .len()
        .saturating_add(nodes)
        .saturating_add(roots.len());
    let mut spread = Spread {
        roots,
        count: 0,
        queue: Vec::new(alloc),
        head: 0,
        link: 0,
        numbers: vec![in alloc; 0; nodes]?,
        order: Vec::new(alloc),
    };
    for _ in 0..turns {
        spread.turn(edges, links)?;
    }
    Ok(spread)
}

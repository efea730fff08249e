//! Nodes that lead to what other nodes lead to, and rows of them: of each place, of the places below it or of those above it,
//! and of all. A node has two edges, so that an operation takes a few for each of its bits.

ghost use Rattle.std.specs.Prelude.{◌≡◌, ℕ, ◌+◌, ◌-◌, ◌<◌, ◌≤◌, ◌↔◌, IfOk, OnOk, length};
ghost use Rattle.eq_reads.specs.Words.{AreNodes, AreThere, LeadsTo};
ghost use Rattle.eq_reads.specs.inner.Leading.{DownLeads, EachLeads, LeadsToBoth, NodesGrew, PairLeads, RowGrew, SomeLeads, UpLeads};

use crate::edges::{add, push_edge};
use crate::graph::Nodes;
use crate::row::{cut, fill, node_at, put};
use eq_base::Memory;

/// A new node that leads to what two nodes lead to.
pub fn both(x: usize, y: usize, nodes: &mut Nodes) -> Result<usize, Memory>
    requires are { AreNodes nodes.old }
    requires left { x < nodes.old.next }
    requires right { y < nodes.old.next }
    ensures grew { OnOk result (NodesGrew nodes.old nodes.new) }
    ensures ok { IfOk result (λ node. LeadsToBoth nodes.old nodes.new x y node) }
{
    let node = nodes.next;
    push_edge(node, x, &mut nodes.edges)?;
    push_edge(node, y, &mut nodes.edges)?;
    nodes.next = add(node, 1)?;
    Ok(node)
}

/// One node that leads to all that the nodes from a place on lead to.
pub fn gather(from: usize, nodes: &mut Nodes, row: &Vec<usize>) -> Result<usize, Memory>
    requires are { AreNodes nodes.old }
    requires there { AreThere nodes.old row.now.items }
    requires from { from ≤ length row.now.items }
    ensures grew { OnOk result (NodesGrew nodes.old nodes.new) }
    ensures there { IfOk result (λ node. node < nodes.new.next) }
    ensures ok { IfOk result (λ node. (c : ℕ) → LeadsTo nodes.new node c ↔
        SomeLeads nodes.old row.now.items from (length row.now.items) c) }
{
    let mut all = nodes.none;
    for place in from..row.len() {
        all = both(all, node_at(row, place), nodes)?;
    }
    Ok(all)
}

/// Puts in the place of each node from a place on one that leads to what all up to it lead to, and another node.
pub fn climb(
    from: usize,
    start: usize,
    nodes: &mut Nodes,
    row: &mut Vec<usize>,
) -> Result<(), Memory>
    requires are { AreNodes nodes.old }
    requires there { AreThere nodes.old row.old.items }
    requires from { from ≤ length row.old.items }
    requires start { start < nodes.old.next }
    ensures { OnOk result (RowGrew nodes.old row.old.items nodes.new row.new.items from
        (length row.old.items - from) (UpLeads nodes.old row.old.items from start)) }
{
    let mut all = start;
    for place in from..row.len() {
        all = both(all, node_at(row, place), nodes)?;
        put(row, place, all);
    }
    Ok(())
}

/// Puts in the place of each node from a place on one that leads to what all from it on lead to, and another node.
pub fn descend(
    from: usize,
    start: usize,
    nodes: &mut Nodes,
    row: &mut Vec<usize>,
) -> Result<(), Memory>
    requires are { AreNodes nodes.old }
    requires there { AreThere nodes.old row.old.items }
    requires from { from ≤ length row.old.items }
    requires start { start < nodes.old.next }
    ensures { OnOk result (RowGrew nodes.old row.old.items nodes.new row.new.items from
        (length row.old.items - from) (DownLeads nodes.old row.old.items from start)) }
{
    let mut all = start;
    let end = row.len();
    for turn in 0..end - from {
        let place = end - 1 - turn;
        all = both(all, node_at(row, place), nodes)?;
        put(row, place, all);
    }
    Ok(())
}

/// Puts in the place of two operands of one size, whose nodes stand from `left` and from `right` on, a node for each place
/// that leads to what theirs lead to.
pub fn combine(
    left: usize,
    right: usize,
    nodes: &mut Nodes,
    row: &mut Vec<usize>,
) -> Result<(), Memory>
    requires are { AreNodes nodes.old }
    requires there { AreThere nodes.old row.old.items }
    requires order { left ≤ right }
    requires size { length row.old.items ≡ right + (right - left) }
    ensures { OnOk result (RowGrew nodes.old row.old.items nodes.new row.new.items left
        (right - left) (PairLeads nodes.old row.old.items left right)) }
{
    for j in 0..right - left {
        let node = both(node_at(row, left + j), node_at(row, right + j), nodes)?;
        put(row, left + j, node);
    }
    cut(row, right);
    Ok(())
}

/// Puts in the place of each node from a place on one that leads to what it leads to, and another node.
pub fn mix(from: usize, other: usize, nodes: &mut Nodes, row: &mut Vec<usize>) -> Result<(), Memory>
    requires are { AreNodes nodes.old }
    requires there { AreThere nodes.old row.old.items }
    requires from { from ≤ length row.old.items }
    requires other { other < nodes.old.next }
    ensures { OnOk result (RowGrew nodes.old row.old.items nodes.new row.new.items from
        (length row.old.items - from) (EachLeads nodes.old row.old.items from other)) }
{
    let right = row.len();
    fill(row, other, right - from)?;
    combine(from, right, nodes, row)
}

//! What can be reached in a graph: a queue of the nodes that are reached, each of which is visited once.

ghost use Rattle.std.specs.Prelude.{◌≡◌, ◌≢◌, ℕ, ◌+◌, ◌<◌, ◌≤◌, ◌↔◌, ◌⊎◌, true, false, IfOk, OnOk, [], ◌∷◌, ◌++◌, length, replicate, slice_index, slice_set};
ghost use Rattle.eq_model.specs.Frames.{values};
ghost use Rattle.eq_reads.specs.Graph.{AreBetween, Joins};
ghost use Rattle.eq_part.specs.inner.Graph.{IsReached};
ghost use Rattle.eq_part.specs.inner.Walking.{AreLinks, Grew, IsSettled, IsUnderway, unmarked};

use eq_base::{Bits, Memory};
use eq_reads::Edge;
use std::alloc::Global;

/// The edges of each node, as a chain of links from the last edge down.
#[derive(Debug, Drop)]
struct Links {
    /// For each node one more than the number of its last edge, 0 where it has none.
    last: Vec<usize>,
    /// For each edge the same of the edge before it from the same node.
    before: Vec<usize>,
}

fn no_links(alloc: Global, nodes: usize) -> Result<Vec<usize>, Memory>
    ensures { IfOk result (λ last. last.items ≡ replicate nodes 0) }
{
    vec![in alloc; 0; nodes]
}

pub fn no_marks(alloc: Global, nodes: usize) -> Result<Vec<bool>, Memory>
    ensures { IfOk result (λ marks. marks.items ≡ replicate nodes false) }
{
    vec![in alloc; false; nodes]
}

/// Makes an edge the last of its node.
fn link(edge: Edge, last: &mut [usize], before: &mut Vec<usize>) -> Result<(), Memory>
    requires { edge.from < length last.old }
    ensures last { OnOk result (last.new ≡
        slice_set last.old edge.from (length before.old.items + 1)) }
    ensures before { OnOk result (before.new.items ≡
        before.old.items ++ (slice_index last.old edge.from ∷ [])) }
{
    before.push(last[edge.from])?;
    last[edge.from] = before.len();
    Ok(())
}

/// The links of all edges.
fn link_all(alloc: Global, nodes: usize, edges: &[Edge]) -> Result<Links, Memory>
    requires { AreBetween nodes edges.now }
    ensures { IfOk result (λ links.
        AreLinks edges.now (length edges.now) nodes links.last.items links.before.items) }
{
    let mut last = no_links(alloc, nodes)?;
    let mut before = Vec::with_capacity(alloc, edges.len())?;
    for edge in edges {
        link(*edge, &mut last, &mut before)?;
    }
    Ok(Links { last, before })
}

/// Marks a node and puts it at the end of the queue, unless it is marked.
fn mark(node: usize, marks: &mut [bool], queue: &mut Vec<usize>) -> Result<(), Memory>
    requires { node < length marks.old }
    ensures grew { OnOk result (Grew marks.old marks.new queue.old.items queue.new.items) }
    ensures marked { OnOk result (values marks.new node ≡ true) }
    ensures others { OnOk result ((x : ℕ) → x ≢ node → values marks.new x ≡ values marks.old x) }
{
    if !marks[node] {
        queue.push(node)?;
        marks[node] = true;
    }
    Ok(())
}

/// Marks the nodes that the edges of a node lead to.
fn visit(
    node: usize,
    edges: &[Edge],
    links: &Links,
    marks: &mut [bool],
    queue: &mut Vec<usize>,
) -> Result<(), Memory>
    requires node { node < length marks.old }
    requires between { AreBetween (length marks.old) edges.now }
    requires links { AreLinks edges.now (length edges.now) (length marks.old) links.now.last.items
        links.now.before.items }
    ensures grew { OnOk result (Grew marks.old marks.new queue.old.items queue.new.items) }
    ensures settled { OnOk result (IsSettled edges.now marks.new node) }
    ensures joined { OnOk result ((x : ℕ) → values marks.new x ≡ true →
        (values marks.old x ≡ true) ⊎ Joins edges.now node x) }
{
    let mut link = links.last[node];
    while link > 0 {
        mark(edges[link - 1].to, marks, queue)?;
        link = links.before[link - 1];
    }
    Ok(())
}

/// Marks the roots.
fn begin(roots: &[bool], marks: &mut [bool], queue: &mut Vec<usize>) -> Result<(), Memory>
    requires { length roots.now ≡ length marks.old }
    ensures grew { OnOk result (Grew marks.old marks.new queue.old.items queue.new.items) }
    ensures roots { OnOk result ((x : ℕ) → values roots.now x ≡ true → values marks.new x ≡ true) }
    ensures only { OnOk result ((x : ℕ) → values marks.new x ≡ true →
        (values marks.old x ≡ true) ⊎ (values roots.now x ≡ true)) }
{
    for node in 0..roots.len() {
        if roots[node] {
            mark(node, marks, queue)?;
        }
    }
    Ok(())
}

/// Visits the nodes in the queue, and all that come there.
fn walk(
    edges: &[Edge],
    links: &Links,
    marks: &mut [bool],
    queue: &mut Vec<usize>,
) -> Result<(), Memory>
    requires between { AreBetween (length marks.old) edges.now }
    requires links { AreLinks edges.now (length edges.now) (length marks.old) links.now.last.items
        links.now.before.items }
    requires begun { IsUnderway edges.now marks.old queue.old.items 0 }
    ensures kept { OnOk result ((x : ℕ) → values marks.old x ≡ true → values marks.new x ≡ true) }
    ensures settled { OnOk result ((x : ℕ) → values marks.new x ≡ true →
        IsSettled edges.now marks.new x) }
    ensures reached { OnOk result ((x : ℕ) → values marks.new x ≡ true →
        IsReached edges.now marks.old x) }
{
    let mut head = 0;
    while head < queue.len() {
        visit(queue[head], edges, links, marks, queue)?;
        head += 1;
    }
    Ok(())
}

/// Marks the roots and all that chains of edges lead to from them.
fn mark_all(
    edges: &[Edge],
    links: &Links,
    roots: &[bool],
    marks: &mut [bool],
    queue: &mut Vec<usize>,
) -> Result<(), Memory>
    requires between { AreBetween (length roots.now) edges.now }
    requires links { AreLinks edges.now (length edges.now) (length roots.now) links.now.last.items
        links.now.before.items }
    requires marks { marks.old ≡ replicate (length roots.now) false }
    requires queue { queue.old.items ≡ [] }
    ensures reached { OnOk result ((x : ℕ) → values marks.new x ≡ true →
        IsReached edges.now roots.now x) }
    ensures marked { OnOk result ((x : ℕ) → IsReached edges.now roots.now x →
        values marks.new x ≡ true) }
{
    begin(roots, marks, queue)?;
    walk(edges, links, marks, queue)?;
    Ok(())
}

/// For each node whether a chain of edges leads to it from a root. Each edge is looked at once.
pub fn reached(alloc: Global, edges: &[Edge], roots: &[bool]) -> Result<Bits, Memory>
    requires { AreBetween (length roots.now) edges.now }
    ensures size { IfOk result (λ marks. length marks ≡ length roots.now) }
    ensures ok { IfOk result (λ marks. (v : ℕ) →
        (values marks v ≡ true) ↔ IsReached edges.now roots.now v) }
{
    let links = link_all(alloc, roots.len(), edges)?;
    let mut marks = no_marks(alloc, roots.len())?;
    let mut queue = Vec::new(alloc);
    mark_all(edges, &links, roots, &mut marks, &mut queue)?;
    Ok(Bits::from_vec(marks))
}

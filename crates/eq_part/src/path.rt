//! The partitions on a path: those that both walks reach, against the reads from the ends and along them from the starts.

ghost use Rattle.std.specs.Prelude.{◌≡◌, ℕ, ◌<◌, ◌≤◌, ◌+◌, ◌↔◌, true, false, IfOk, length};
ghost use Rattle.eq_model.specs.Frames.{values};
ghost use Rattle.eq_net.specs.Net.{HasBit, bits_of};
ghost use Rattle.eq_net.specs.Whole.{parts_of};
ghost use Rattle.eq_match.specs.Groups.{is_held};
ghost use Rattle.eq_match.specs.Leaders.{one_leader};
ghost use Rattle.eq_match.specs.Pairs.{pair_at};
ghost use Rattle.eq_match.specs.Matched.{gold_bit};
ghost use Rattle.eq_part.specs.Reach.{LiesBetween};
ghost use Rattle.eq_reads.specs.Graph.{AreBetween, Joins};
ghost use Rattle.eq_part.specs.inner.Visits.{AreLed, IsPassed, IsRoot, IsWalked};
ghost use Rattle.eq_reads.specs.Words.{number_at};

use crate::reached::{no_marks, reached};
use crate::visits::{graph_of, pair_at};
use eq_base::{Bits, Memory};
use eq_match::Pair;
use eq_net::Net;
use eq_net::laws::words_make_a_system;
use eq_reads::Edge;
use std::alloc::Global;

/// The edges the other way round.
fn turned(alloc: Global, edges: &[Edge]) -> Result<Vec<Edge>, Memory>
    ensures count { IfOk result (λ all. length all.items ≡ length edges.now) }
    ensures ok { IfOk result (λ all. (a b : ℕ) → Joins all.items a b ↔ Joins edges.now b a) }
{
    let mut all = Vec::with_capacity(alloc, edges.len())?;
    for edge in edges {
        all.push(Edge {
            from: edge.to,
            to: edge.from,
        })?;
    }
    Ok(all)
}

/// The nodes of partitions that have a hit output, among all nodes.
fn roots(
    alloc: Global,
    gold: &Net,
    nodes: usize,
    pairs: &[Pair],
    leaders: &[u32],
    hits: &[bool],
) -> Result<Vec<bool>, Memory>
    requires led { AreLed (parts_of gold.now) pairs.now leaders.now }
    requires nodes { bits_of gold.now.nets + length pairs.now ≤ nodes }
    requires hits { length hits.now ≡ length pairs.now }
    ensures size { IfOk result (λ marks. length marks.items ≡ nodes) }
    ensures ok { IfOk result (λ marks. (x : ℕ) → (values marks.items x ≡ true) ↔
        IsRoot (parts_of gold.now) pairs.now leaders.now (values hits.now) x) }
{
    let mut marks = no_marks(alloc, nodes)?;
    for i in 0..pairs.len() {
        if hits[i] && !pair_at(pairs, i).input {
            marks[gold.drivers.len() + leaders[i] as usize] = true;
        }
    }
    Ok(marks)
}

/// Whether a pair is no input's, and its partition's node is marked by both walks.
fn is_passed(input: bool, part: usize, before: &[bool], behind: &[bool]) -> bool
    requires before { part < length before.now }
    requires behind { part < length behind.now }
    ensures { (result ≡ true) ↔ ((input ≡ false) ×
        ((values before.now part ≡ true) × (values behind.now part ≡ true))) }
{
    !input && before[part] && behind[part]
}

/// Of each node whether a chain of edges leads to it from a partition with a hit output.
fn walk(
    alloc: Global,
    gold: &Net,
    nodes: usize,
    pairs: &[Pair],
    leaders: &[u32],
    hits: &[bool],
    edges: &[Edge],
) -> Result<Bits, Memory>
    requires led { AreLed (parts_of gold.now) pairs.now leaders.now }
    requires nodes { bits_of gold.now.nets + length pairs.now ≤ nodes }
    requires hits { length hits.now ≡ length pairs.now }
    requires edges { AreBetween nodes edges.now }
    ensures size { IfOk result (λ marks. length marks ≡ nodes) }
    ensures ok { IfOk result (λ marks. (x : ℕ) → (values marks x ≡ true) ↔
        IsWalked (parts_of gold.now) pairs.now leaders.now (values hits.now) edges.now x) }
{
    let roots = roots(alloc, gold, nodes, pairs, leaders, hits)?;
    let marks = reached(alloc, edges, &roots)?;
    Ok(marks)
}

/// The positions whose partitions both walks marked.
fn passed(
    alloc: Global,
    gold: &Net,
    pairs: &[Pair],
    leaders: &[u32],
    before: &[bool],
    behind: &[bool],
) -> Result<Bits, Memory>
    requires led { AreLed (parts_of gold.now) pairs.now leaders.now }
    requires before { bits_of gold.now.nets + length pairs.now ≤ length before.now }
    requires behind { bits_of gold.now.nets + length pairs.now ≤ length behind.now }
    ensures size { IfOk result (λ bits. length bits ≡ length pairs.now) }
    ensures ok { IfOk result (λ bits. (i : ℕ) → i < length pairs.now → (values bits i ≡ true) ↔
        IsPassed (parts_of gold.now) pairs.now leaders.now before.now behind.now i) }
{
    let mut bits = Bits::new(alloc);
    for i in 0..pairs.len() {
        let part = gold.drivers.len() + leaders[i] as usize;
        bits.push(is_passed(pair_at(pairs, i).input, part, before, behind))?;
    }
    Ok(bits)
}

/// The positions whose partitions lie on a path from one with an output in `starts` to one with an output in `ends`, where
/// leaders tell partitions. Each edge is looked at twice.
pub fn on_path(
    alloc: Global,
    gold: &Net,
    pairs: &[Pair],
    leaders: &[u32],
    starts: &[bool],
    ends: &[bool],
) -> Result<Bits, Memory>
    requires led { AreLed (parts_of gold.now) pairs.now leaders.now }
    requires starts { length starts.now ≡ length pairs.now }
    requires ends { length ends.now ≡ length pairs.now }
    ensures size { IfOk result (λ bits. length bits ≡ length pairs.now) }
    ensures ok { IfOk result (λ bits. (i : ℕ) → i < length pairs.now → (values bits i ≡ true) ↔
        LiesBetween (parts_of gold.now) pairs.now (one_leader leaders.now) (values starts.now)
        (values ends.now) i) }
{
    words_make_a_system();
    let graph = graph_of(alloc, gold, pairs, leaders)?;
    let nodes = graph.next;
    let along = turned(alloc, &graph.edges)?;
    let before = walk(alloc, gold, nodes, pairs, leaders, starts, &along)?;
    let behind = walk(alloc, gold, nodes, pairs, leaders, ends, &graph.edges)?;
    let bits = passed(
        alloc,
        gold,
        pairs,
        leaders,
        before.as_slice(),
        behind.as_slice(),
    )?;
    Ok(bits)
}

//! The graph of a walk against the reads: bits that are read, partitions, and the nodes of words between them.

ghost use Rattle.std.specs.Prelude.{◌≡◌, ℕ, ◌+◌, ◌<◌, ◌≤◌, ◌^◌, ◌↔◌, false, true, suc, IfOk, OnOk, length, replicate};
ghost use Rattle.eq_model.specs.Frames.{values};
ghost use Rattle.eq_net.specs.Net.{HasBit, bits_of, driver_at};
ghost use Rattle.eq_net.specs.Whole.{parts_of};
ghost use Rattle.eq_match.specs.Groups.{is_held};
ghost use Rattle.eq_match.specs.Pairs.{pair_at};
ghost use Rattle.eq_match.specs.Matched.{gold_bit};
ghost use Rattle.eq_reads.specs.Words.{BeginAt};
ghost use Rattle.eq_reads.specs.Graph.{Adds};
ghost use Rattle.eq_part.specs.inner.Visits.{AreLed, AreVisits, DrawnVisits, FreeVisits, IsWordBit, OneVisits, PairsVisit, Unpaired};
ghost use Rattle.eq_reads.specs.inner.Drawing.{Gains, IsPlacedDriver};

use crate::reached::no_marks;
use eq_base::Memory;
use eq_match::Pair;
use eq_net::laws::bits_stand_by_nets;
use eq_net::{Driver, Net, WordBit};
use eq_reads::{Edge, Nodes, WordNodes, add, named, picked, push_edge, starts, word_nodes};
use std::alloc::Global;

/// Adds an edge to the bit of a word that a driver names.
fn push_driven(
    from: usize,
    driver: Driver,
    places: &[usize],
    row: &Vec<usize>,
    edges: &mut Vec<Edge>,
) -> Result<(), Memory>
    requires { IsPlacedDriver places.now row.now.items driver }
    ensures { OnOk result (Adds edges.old.items edges.new.items from
        (IsWordBit places.now row.now.items driver)) }
{
    match driver {
        Driver::Input => Ok(()),
        Driver::Undriven => Ok(()),
        Driver::Expr { word, bit } => {
            push_edge(from, picked(WordBit { word, bit }, places, row), edges)
        }
        Driver::Reg { word, bit, .. } => {
            push_edge(from, picked(WordBit { word, bit }, places, row), edges)
        }
    }
}

/// The pair at a position.
pub fn pair_at(pairs: &[Pair], i: usize) -> Pair
    requires { i < length pairs.now }
    ensures { result ≡ pair_at pairs.now i }
{
    pairs[i]
}

/// The driver of a bit.
fn driver_at(gold: &Net, b: usize) -> Driver
    requires { b < bits_of gold.now.nets }
    ensures { result ≡ driver_at (parts_of gold.now) b }
{
    gold.drivers.as_slice()[b]
}

/// The number of the gold bit at a position.
fn gold_bit(gold: &Net, pairs: &[Pair], i: usize, starts: &[usize]) -> usize
    requires within { i < length pairs.now }
    requires there { HasBit gold.now.nets (pair_at pairs.now i).gold }
    requires starts { BeginAt gold.now.nets starts.now }
    requires few { bits_of gold.now.nets < 2 ^ 32 }
    ensures value { result ≡ gold_bit (parts_of gold.now) pairs.now i }
    ensures there { result < bits_of gold.now.nets }
{
    bits_stand_by_nets();
    named(pair_at(pairs, i).gold, gold.nets.as_slice(), starts)
}

/// Which bits are in a pair.
fn paired(alloc: Global, gold: &Net, pairs: &[Pair], starts: &[usize]) -> Result<Vec<bool>, Memory>
    requires there { (i : ℕ) → i < length pairs.now →
        HasBit gold.now.nets (pair_at pairs.now i).gold }
    requires starts { BeginAt gold.now.nets starts.now }
    requires few { bits_of gold.now.nets < 2 ^ 32 }
    ensures size { IfOk result (λ marks. length marks.items ≡ bits_of gold.now.nets) }
    ensures ok { IfOk result (λ marks. (b : ℕ) → b < bits_of gold.now.nets →
        (values marks.items b ≡ false) ↔ Unpaired (parts_of gold.now) pairs.now b) }
{
    let mut marks = no_marks(alloc, gold.drivers.len())?;
    for i in 0..pairs.len() {
        let bit = gold_bit(gold, pairs, i, starts);
        marks[bit] = true;
    }
    Ok(marks)
}

/// Adds the edges of the bits that are in no pair.
fn push_free(
    gold: &Net,
    paired: &[bool],
    places: &[usize],
    row: &Vec<usize>,
    edges: &mut Vec<Edge>,
) -> Result<(), Memory>
    requires size { length paired.now ≡ bits_of gold.now.nets }
    requires placed { (b : ℕ) → IsPlacedDriver places.now row.now.items
        (driver_at (parts_of gold.now) b) }
    ensures { OnOk result (Gains edges.old.items edges.new.items (FreeVisits (parts_of gold.now)
        (values paired.now) places.now row.now.items (bits_of gold.now.nets))) }
{
    for b in 0..paired.len() {
        if !paired[b] {
            push_driven(b, driver_at(gold, b), places, row, edges)?;
        }
    }
    Ok(())
}

/// Adds the edges of a pair, unless it is one of inputs: its partition leads to what drives its bit, and its bit to the partition.
fn push_pair(
    input: bool,
    part: usize,
    bit: usize,
    driver: Driver,
    places: &[usize],
    row: &Vec<usize>,
    edges: &mut Vec<Edge>,
) -> Result<(), Memory>
    requires { IsPlacedDriver places.now row.now.items driver }
    ensures { OnOk result (Gains edges.old.items edges.new.items
        (OneVisits input part bit driver places.now row.now.items)) }
{
    if input {
        return Ok(());
    }
    push_driven(part, driver, places, row, edges)?;
    push_edge(bit, part, edges)
}

/// Adds the edges of all pairs.
fn push_pairs(
    gold: &Net,
    pairs: &[Pair],
    leaders: &[u32],
    starts: &[usize],
    places: &[usize],
    row: &Vec<usize>,
    edges: &mut Vec<Edge>,
) -> Result<(), Memory>
    requires led { AreLed (parts_of gold.now) pairs.now leaders.now }
    requires starts { BeginAt gold.now.nets starts.now }
    requires few { bits_of gold.now.nets < 2 ^ 32 }
    requires placed { (b : ℕ) → IsPlacedDriver places.now row.now.items
        (driver_at (parts_of gold.now) b) }
    ensures { OnOk result (Gains edges.old.items edges.new.items (PairsVisit (parts_of gold.now)
        pairs.now leaders.now places.now row.now.items (length pairs.now))) }
{
    for i in 0..pairs.len() {
        let bit = gold_bit(gold, pairs, i, starts);
        let part = gold.drivers.len() + leaders[i] as usize;
        let input = pair_at(pairs, i).input;
        push_pair(input, part, bit, driver_at(gold, bit), places, row, edges)?;
    }
    Ok(())
}

/// Adds the edges of pairs and of the bits that are in none.
fn draw(
    gold: &Net,
    pairs: &[Pair],
    leaders: &[u32],
    starts: &[usize],
    places: &[usize],
    row: &Vec<usize>,
    paired: &[bool],
    edges: &mut Vec<Edge>,
) -> Result<(), Memory>
    requires led { AreLed (parts_of gold.now) pairs.now leaders.now }
    requires starts { BeginAt gold.now.nets starts.now }
    requires few { bits_of gold.now.nets < 2 ^ 32 }
    requires placed { (b : ℕ) → IsPlacedDriver places.now row.now.items
        (driver_at (parts_of gold.now) b) }
    requires size { length paired.now ≡ bits_of gold.now.nets }
    ensures { OnOk result (Gains edges.old.items edges.new.items (DrawnVisits (parts_of gold.now)
        pairs.now leaders.now (values paired.now) places.now row.now.items)) }
{
    push_pairs(gold, pairs, leaders, starts, places, row, edges)?;
    push_free(gold, paired, places, row, edges)?;
    Ok(())
}

/// The graph.
pub fn graph_of(alloc: Global, gold: &Net, pairs: &[Pair], leaders: &[u32]) -> Result<Nodes, Memory>
    requires { AreLed (parts_of gold.now) pairs.now leaders.now }
    ensures { IfOk result (λ g.
        AreVisits (parts_of gold.now) pairs.now leaders.now g.edges.items g.next) }
{
    let starts = starts(alloc, gold.nets.as_slice())?;
    let paired = paired(alloc, gold, pairs, &starts)?;
    let first = add(gold.drivers.len(), pairs.len())?;
    let words = gold.words.as_slice();
    let WordNodes {
        mut nodes,
        places,
        row,
    } = word_nodes(alloc, first, gold.nets.as_slice(), words, &starts)?;
    draw(
        gold,
        pairs,
        leaders,
        &starts,
        &places,
        &row,
        &paired,
        &mut nodes.edges,
    )?;
    Ok(nodes)
}

//! The graph of what bits read within a cycle.

ghost use Rattle.std.specs.Prelude.{◌≡◌, ℕ, ◌<◌, ◌^◌, All, IfOk, OnOk, length, slice_index_or};
ghost use Rattle.eq_net.specs.Net.{AreWords, NamesWord, bits_of};
ghost use Rattle.eq_net.specs.Tree.{trees_of};
ghost use Rattle.eq_reads.specs.Graph.{Adds, AreReads};
ghost use Rattle.eq_reads.specs.inner.Drawing.{Gains, IsNowBit, IsPlacedDriver, NowDrawn};

use crate::edges::push_edge;
use crate::words::{WordNodes, picked, starts, word_nodes};
use eq_base::Memory;
use eq_net::{Driver, NetInfo, Word, WordBit};
use std::alloc::Global;

/// An edge of a graph whose nodes are numbers.
#[derive(Clone, Copy, Debug, PartialEq, Eq)]
pub struct Edge {
    pub from: usize,
    pub to: usize,
}

/// Nodes by their numbers, and the edges between them.
#[derive(Debug, Drop)]
pub struct Nodes {
    pub edges: Vec<Edge>,
    /// The node that leads to nothing. Before it are the caller's first nodes, behind it the inner ones.
    pub none: usize,
    /// The number of the next node.
    pub next: usize,
}

/// The graph of what bits read within a cycle: its first nodes are the bits, behind them stand inner ones.
pub fn reads_graph(
    alloc: Global,
    nets: &[NetInfo],
    words: &[Word],
    drivers: &[Driver],
) -> Result<Nodes, Memory>
    requires words { AreWords nets.now (trees_of words.now) }
    requires drivers { All (NamesWord (trees_of words.now)) drivers.now }
    requires size { length drivers.now ≡ bits_of nets.now }
    requires few { bits_of nets.now < 2 ^ 32 }
    ensures ok { IfOk result (λ g.
        AreReads nets.now (trees_of words.now) drivers.now g.edges.items g.next) }
{
    let starts = starts(alloc, nets)?;
    let all = word_nodes(alloc, drivers.len(), nets, words, &starts)?;
    let WordNodes {
        mut nodes,
        places,
        row,
    } = all;
    push_reads(drivers, &places, &row, &mut nodes.edges)?;
    Ok(nodes)
}

/// Adds the edges of all bits.
fn push_reads(
    drivers: &[Driver],
    places: &[usize],
    row: &Vec<usize>,
    edges: &mut Vec<Edge>,
) -> Result<(), Memory>
    requires { (b : ℕ) → IsPlacedDriver places.now row.now.items
        (slice_index_or drivers.now b Driver.Undriven) }
    ensures { OnOk result (Gains edges.old.items edges.new.items
        (NowDrawn drivers.now places.now row.now.items (length drivers.now))) }
{
    for b in 0..drivers.len() {
        push_now(b, drivers[b], places, row, edges)?;
    }
    Ok(())
}

/// Adds an edge to the bit of a word that drives within a cycle.
fn push_now(
    from: usize,
    driver: Driver,
    places: &[usize],
    row: &Vec<usize>,
    edges: &mut Vec<Edge>,
) -> Result<(), Memory>
    requires { IsPlacedDriver places.now row.now.items driver }
    ensures { OnOk result (Adds edges.old.items edges.new.items from
        (IsNowBit places.now row.now.items driver)) }
{
    match driver {
        Driver::Input => Ok(()),
        Driver::Undriven => Ok(()),
        Driver::Expr { word, bit } => {
            push_edge(from, picked(WordBit { word, bit }, places, row), edges)
        }
        Driver::Reg { .. } => Ok(()),
    }
}

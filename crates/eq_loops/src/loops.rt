//! The first bit on a combinational loop. The components of the graph of reads tell the first bit that may be on one, and a walk
//! from it gives its chain. Nothing is believed of the components: bits are tried from that one on.

ghost use Rattle.std.specs.Prelude.{◌≡◌, ◌<◌, ◌^◌, All, None, IfOk, IfSome, length};
ghost use Rattle.eq_model.specs.System.{IsLoopFree};
ghost use Rattle.eq_net.specs.Net.{AreWords, NamesWord, bits_of, design_of};
ghost use Rattle.eq_net.specs.Tree.{trees_of};
ghost use Rattle.eq_reads.specs.Graph.{bare};
ghost use Rattle.eq_loops.specs.Cycle.{IsCycle};

use crate::components::component_numbers;
use crate::rounds::first_round;
use crate::suspects::first_suspect;
use eq_base::Memory;
use eq_net::{Driver, NetInfo, Word};
use eq_reads::reads_graph;
use std::alloc::Global;

/// The first bit that a chain of reads within a cycle leads back to, and the bits of a shortest-to-write such chain from it on,
/// each once.
pub fn first_loop(
    alloc: Global,
    nets: &[NetInfo],
    words: &[Word],
    drivers: &[Driver],
) -> Result<Option<Vec<u32>>, Memory>
    requires words { AreWords nets.now (trees_of words.now) }
    requires drivers { All (NamesWord (trees_of words.now)) drivers.now }
    requires size { length drivers.now ≡ bits_of nets.now }
    requires few { bits_of nets.now < 2 ^ 32 }
    ensures none { IfOk result (λ found. found ≡ None →
        IsLoopFree (design_of (bare nets.now (trees_of words.now) drivers.now)).system) }
    ensures found { IfOk result (λ found. IfSome found (λ bits.
        IsCycle (design_of (bare nets.now (trees_of words.now) drivers.now)).system
        bits.items)) }
{
    let graph = reads_graph(alloc, nets, words, drivers)?;
    let edges = graph.edges.as_slice();
    let numbers = component_numbers(alloc, graph.next, edges)?;
    let begin = first_suspect(edges, &numbers, drivers.len());
    first_round(alloc, graph.next, edges, drivers.len(), begin)
}

//! With numbers that don't fall along edges a cycle stays among nodes of one number.

ghost use Rattle.std.specs.Prelude.{◌≤◌};
ghost use Rattle.eq_loops.specs.Components.{NeverFall};
ghost use Rattle.eq_loops.specs.inner.Back.{AreClear};

use crate::numbers::number_in;
use eq_reads::Edge;

/// A node before which none is on a cycle: the first that has an edge to one of its own number.
pub fn first_suspect(edges: &[Edge], numbers: &[usize], bits: usize) -> usize
    requires rising { NeverFall edges.now numbers.now }
    ensures clear { AreClear edges.now result }
    ensures most { result ≤ bits }
{
    let mut first = bits;
    for edge in edges {
        let from = number_in(numbers, edge.from);
        let to = number_in(numbers, edge.to);
        if from == to && edge.from < first {
            first = edge.from;
        }
    }
    first
}

//! Graphs of gates, each of which reads the two nodes before it, and the formula of one.

use eq_bits::{Builder, Name, Node, Nodes, Part};
use eq_unroll::{Query, formula, is_unrollable};
use std::alloc::Global;
use test_parts::{Sides, is_table, part};

/// The most nodes.
const MOST: u32 = 67_108_864;

/// The two inputs.
fn inputs(alloc: Global) -> Option<Builder> {
    let mut builder = Builder::new(alloc).ok()?;
    builder.node(Node::Input(0)).ok()?;
    builder.node(Node::Input(1)).ok()?;
    Some(builder)
}

/// Appends an And or Xor of the last two nodes, and asks for it again with its operands exchanged.
fn push_gate(builder: &mut Builder) -> Option<u32> {
    let m = builder.len();
    if m < 2 || MOST < m {
        return None;
    }
    let (node, again) = if m % 2 == 0 {
        (Node::And(m - 2, m - 1), Node::And(m - 1, m - 2))
    } else {
        (Node::Xor(m - 2, m - 1), Node::Xor(m - 1, m - 2))
    };
    builder.node(node).ok()?;
    builder.node(again).ok()
}

/// A graph of two inputs and so many gates.
fn chain(alloc: Global, gates: u32) -> Option<Builder> {
    let mut builder = inputs(alloc)?;
    for _ in 0..gates {
        push_gate(&mut builder)?;
    }
    Some(builder)
}

/// How many nodes a graph of so many gates has, made by two questions for each.
pub fn nodes(alloc: Global, gates: u32) -> Option<u64> {
    Some(u64::from(chain(alloc, gates)?.len()))
}

/// The part of a graph, whose last two nodes are gold's outputs and the two before them gate's.
fn part_of(alloc: Global, nodes: &Nodes) -> Option<Part> {
    let last = u32::try_from(nodes.len()).ok()?;
    let outputs = [
        Sides {
            gold: last.wrapping_sub(1),
            gate: last.wrapping_sub(3),
        },
        Sides {
            gold: last.wrapping_sub(2),
            gate: last.wrapping_sub(4),
        },
    ];
    if !is_table(2, nodes.as_slice(), &outputs) {
        return None;
    }
    let name = Name::read(alloc, b"y").ok()?;
    part(alloc, &name, 2, nodes.as_slice(), &outputs).ok()
}

/// How many clauses the formula of Step has for the part of so many gates at k cycles. In each of k + 1 cycles an And has
/// three and an Xor four, and two say of each output that it is equal, or that it differs; and there is one more.
pub fn clauses(alloc: Global, gates: u32, k: u32) -> Option<u64> {
    let nodes = chain(alloc, gates)?.finish();
    let part = part_of(alloc, &nodes)?;
    if !is_unrollable(&part, k) {
        return None;
    }
    let formula = formula(alloc, &part, Query::Step, k).ok()?;
    Some(formula.clauses.len() as u64)
}

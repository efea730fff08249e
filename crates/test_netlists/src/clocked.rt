//! The counter's netlist as a graph: the kinds of its bits' own nodes, and three cycles. And the names of bits.

use crate::forms::forms_at;
use crate::graphs::{node_values, own_values};
use crate::steps::{SEEN, counter, number};
use eq_bits::Node;
use eq_blast::{Graph, blast};
use eq_net::{BitName, Bits, Name, Net, bit_text};
use std::alloc::Global;
use std::test::Fail;

fn counter_graph(alloc: Global) -> Result<Graph, Fail> {
    let net = counter(alloc)?;
    Ok(blast(alloc, &net)?)
}

/// The node of a bit.
fn own(graph: &Graph, bit: usize) -> Option<Node> {
    let number = graph.bits.get(bit)?;
    graph.nodes.get(*number as usize).copied()
}

/// Whether the clock is an input, each bit of the number a register that begins at 0, and the last bit a copy.
fn are_kinds(graph: &Graph) -> bool {
    match (own(graph, 0), own(graph, 1), own(graph, 2), own(graph, 3)) {
        (
            Some(Node::Input(0)),
            Some(Node::Reg { init: false, .. }),
            Some(Node::Reg { init: false, .. }),
            Some(Node::Buf(_)),
        ) => graph.bits.len() == 4,
        _ => false,
    }
}

#[test]
fn an_input_a_register_and_a_word_have_nodes_of_their_kind(rt: HostRuntime) -> Result<(), Fail> {
    let graph = counter_graph(rt.alloc())?;
    assert_eq!(rt; are_kinds(&graph), true);
    Ok(())
}

/// What is seen of the counter in the graph, where its nodes have these values.
fn seen(alloc: Global, graph: &Graph, values: &[bool]) -> Result<Option<(u8, bool)>, Fail> {
    let own = own_values(alloc, graph.bits.as_slice(), values)?;
    Ok(number(own.as_slice()))
}

/// The values of all nodes in the next cycle.
fn next(alloc: Global, graph: &Graph, before: &Bits) -> Result<Bits, Fail> {
    node_values(alloc, graph.nodes.as_slice(), &[false], before.as_slice())
}

/// The first cycle in which something else is seen.
fn first_other(alloc: Global) -> Result<Option<usize>, Fail> {
    let graph = counter_graph(alloc)?;
    let mut values = Bits::new(alloc);
    for (cycle, wanted) in SEEN.iter().enumerate() {
        values = next(alloc, &graph, &values)?;
        if seen(alloc, &graph, values.as_slice())? != Some(*wanted) {
            return Ok(Some(cycle));
        }
    }
    Ok(None)
}

#[test]
fn the_graph_of_a_counter_counts(rt: HostRuntime) -> Result<(), Fail> {
    assert_eq!(rt; first_other(rt.alloc())?, None);
    Ok(())
}

#[test]
fn the_graph_of_a_counter_is_no_larger_than_it_costs(rt: HostRuntime) -> Result<(), Fail> {
    // 2, four bits, 5 * 2 for the sum and 3 * 2 for the comparison
    let graph = counter_graph(rt.alloc())?;
    assert_eq!(rt; graph.nodes.len() <= 22, true);
    Ok(())
}

/// The name of a bit, where there is that bit.
fn text(alloc: Global, net: &Net, bit: BitName) -> Result<Option<Name>, Fail> {
    let nets = net.nets.as_slice();
    let number = bit.net as usize;
    if number >= nets.len() || u64::from(bit.bit) >= nets[number].width() {
        return Ok(None);
    }
    Ok(Some(bit_text(alloc, net, bit)?))
}

fn has_name(alloc: Global, net: &Net, bit: BitName, name: &[u8]) -> Result<bool, Fail> {
    match text(alloc, net, bit)? {
        Some(text) => Ok(text.bytes() == name),
        None => Ok(name.is_empty()),
    }
}

/// The bits of the counter, which has `q[2:1]`, and of the other netlist with operands of 3 bits, which has `a[2:0]` and
/// `c[4:5]`.
const NAMES: [(bool, BitName, &[u8]); 12] = [
    (false, BitName { net: 0, bit: 0 }, b"clk"),
    (false, BitName { net: 0, bit: 1 }, b""),
    (false, BitName { net: 1, bit: 0 }, b"q[1]"),
    (false, BitName { net: 1, bit: 1 }, b"q[2]"),
    (false, BitName { net: 1, bit: 2 }, b""),
    (false, BitName { net: 2, bit: 0 }, b"y"),
    (true, BitName { net: 0, bit: 0 }, b"a[0]"),
    (true, BitName { net: 0, bit: 2 }, b"a[2]"),
    (true, BitName { net: 2, bit: 0 }, b"c[5]"),
    (true, BitName { net: 2, bit: 1 }, b"c[4]"),
    (true, BitName { net: 3, bit: 31 }, b"y[31]"),
    (true, BitName { net: 4, bit: 0 }, b""),
];

fn netlist(alloc: Global, other: bool) -> Result<Net, Fail> {
    if other {
        forms_at(alloc, 3)
    } else {
        counter(alloc)
    }
}

fn is_named(alloc: Global, other: bool, bit: BitName, name: &[u8]) -> Result<bool, Fail> {
    let net = netlist(alloc, other)?;
    has_name(alloc, &net, bit, name)
}

/// The first bit with another name.
fn first_misnamed(alloc: Global) -> Result<Option<usize>, Fail> {
    for (number, (other, bit, name)) in NAMES.iter().enumerate() {
        if !is_named(alloc, *other, *bit, name)? {
            return Ok(Some(number));
        }
    }
    Ok(None)
}

#[test]
fn names_bits_by_ranges_in_both_directions(rt: HostRuntime) -> Result<(), Fail> {
    assert_eq!(rt; first_misnamed(rt.alloc())?, None);
    Ok(())
}

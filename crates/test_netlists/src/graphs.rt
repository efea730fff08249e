//! The graph of a netlist of every operator: its values, node by node, against numbers, and how large it is.

use crate::forms::forms_at;
use crate::operator_rows::ROWS;
use crate::operators::{netlist_at, push_number, values, wrong_operator};
use eq_bits::Node;
use eq_blast::{Graph, blast};
use eq_net::{Bits, Net};
use std::alloc::Global;
use std::test::Fail;

/// The value of a node behind those that have these values.
fn value(values: &[bool], node: u32) -> bool {
    values.get(node as usize) == Some(&true)
}

/// The value of a node, where the nodes before it have these, and all nodes had those in the cycle before. In the first cycle
/// there is none before.
fn node_value(node: Node, values: &[bool], inputs: &[bool], before: &[bool]) -> bool {
    match node {
        Node::Const(bit) => bit,
        Node::Input(i) => value(inputs, i),
        Node::Not(a) => !value(values, a),
        Node::And(a, b) => value(values, a) & value(values, b),
        Node::Xor(a, b) => value(values, a) != value(values, b),
        Node::Mux(s, a, b) => {
            if value(values, s) {
                value(values, a)
            } else {
                value(values, b)
            }
        }
        Node::Buf(a) => value(values, a),
        Node::Reg { next, init } => {
            if before.is_empty() {
                init
            } else {
                value(before, next)
            }
        }
    }
}

/// The values of all nodes in a cycle, in order.
pub fn node_values(
    alloc: Global,
    nodes: &[Node],
    inputs: &[bool],
    before: &[bool],
) -> Result<Bits, Fail> {
    let mut values = Bits::new(alloc);
    for node in nodes {
        let next = node_value(*node, values.as_slice(), inputs, before);
        values.push(next)?;
    }
    Ok(values)
}

/// The values of the bits' own nodes.
pub fn own_values(alloc: Global, bits: &[u32], values: &[bool]) -> Result<Bits, Fail> {
    let mut own = Bits::new(alloc);
    for bit in bits {
        own.push(value(values, *bit))?;
    }
    Ok(own)
}

fn graph(alloc: Global, width: u32) -> Result<Graph, Fail> {
    let net = netlist_at(alloc, width)?;
    Ok(blast(alloc, &net)?)
}

/// The values of a netlist's bits in its graph, in the first cycle.
pub fn graph_values(alloc: Global, net: &Net, inputs: &[bool]) -> Result<Bits, Fail> {
    let graph = blast(alloc, net)?;
    let values = node_values(alloc, graph.nodes.as_slice(), inputs, &[])?;
    own_values(alloc, graph.bits.as_slice(), values.as_slice())
}

/// The values of the netlist's bits in the graph, where the operands are these numbers.
fn bit_values(alloc: Global, width: u32, a: u128, b: u128) -> Result<Bits, Fail> {
    let net = netlist_at(alloc, width)?;
    let mut inputs = Bits::new(alloc);
    push_number(a, width, &mut inputs)?;
    push_number(b, width, &mut inputs)?;
    graph_values(alloc, &net, inputs.as_slice())
}

/// The first operator with a wrong result in a row.
fn wrong_in_row(alloc: Global, row: &(u32, u128, u128, [u128; 16])) -> Result<Option<usize>, Fail> {
    let (width, a, b, wanted) = row;
    let values = bit_values(alloc, *width, *a, *b)?;
    Ok(wrong_operator(values.as_slice(), *width, wanted))
}

/// The first row with a wrong result, and the operator.
fn first_wrong(alloc: Global) -> Result<Option<(usize, usize)>, Fail> {
    for (number, row) in ROWS.iter().enumerate() {
        if let Some(operator) = wrong_in_row(alloc, row)? {
            return Ok(Some((number, operator)));
        }
    }
    Ok(None)
}

#[test]
fn a_graph_computes_each_operator_at_each_width(rt: HostRuntime) -> Result<(), Fail> {
    assert_eq!(rt; first_wrong(rt.alloc())?, None);
    Ok(())
}

/// Widths up to 8, and how many numbers have so many digits.
const NARROW: [(u32, u32); 8] = [
    (1, 2),
    (2, 4),
    (3, 8),
    (4, 16),
    (5, 32),
    (6, 64),
    (7, 128),
    (8, 256),
];

/// Whether the graph gives the bits what a step gives them.
fn agrees(alloc: Global, width: u32, a: u32, b: u32) -> Result<bool, Fail> {
    let graph = bit_values(alloc, width, u128::from(a), u128::from(b))?;
    let step = values(alloc, width, u128::from(a), u128::from(b))?;
    Ok(graph.as_slice() == step.as_slice())
}

/// The first right operand for which the graph gives something else than a step.
fn right_apart(alloc: Global, width: u32, numbers: u32, a: u32) -> Result<Option<u32>, Fail> {
    for b in 0..numbers {
        if !agrees(alloc, width, a, b)? {
            return Ok(Some(b));
        }
    }
    Ok(None)
}

/// The first operands for which it does so.
fn first_apart(alloc: Global, width: u32, numbers: u32) -> Result<Option<(u32, u32)>, Fail> {
    for a in 0..numbers {
        if let Some(b) = right_apart(alloc, width, numbers, a)? {
            return Ok(Some((a, b)));
        }
    }
    Ok(None)
}

/// The first width with such operands.
fn first_width_apart(alloc: Global) -> Result<Option<(u32, (u32, u32))>, Fail> {
    for (width, numbers) in &NARROW {
        if let Some(operands) = first_apart(alloc, *width, *numbers)? {
            return Ok(Some((*width, operands)));
        }
    }
    Ok(None)
}

#[test]
fn a_graph_agrees_with_steps_on_all_values_up_to_eight_bits(rt: HostRuntime) -> Result<(), Fail> {
    assert_eq!(rt; first_width_apart(rt.alloc())?, None);
    Ok(())
}

/// Widths, and what the netlist of all operators costs at each: 2, a node for each of its 10 w + 8 bits, and for the
/// operators 19 w + 2 w w + 6 w + 1 + 8 w + 4 + 16 w + 8.
const COSTS: [(u32, usize); 6] = [
    (1, 84),
    (2, 149),
    (8, 623),
    (64, 11_991),
    (65, 12_308),
    (128, 40_343),
];

/// The first width at which the graph has more nodes than the netlist costs.
fn first_too_large(alloc: Global) -> Result<Option<u32>, Fail> {
    for (width, cost) in &COSTS {
        if graph(alloc, *width)?.nodes.len() > *cost {
            return Ok(Some(*width));
        }
    }
    Ok(None)
}

#[test]
fn a_graph_is_no_larger_than_its_netlist_costs(rt: HostRuntime) -> Result<(), Fail> {
    assert_eq!(rt; first_too_large(rt.alloc())?, None);
    Ok(())
}

/// Widths, and what the netlist of all other words costs at each: 2, a node for each of its 8 w + 16 bits, and for the words
/// w + 6 w + 8 + w + 16 w + 4.
const OTHER_COSTS: [(u32, usize); 6] = [
    (1, 62),
    (2, 94),
    (3, 126),
    (8, 286),
    (64, 2_078),
    (65, 2_110),
];

fn other_graph(alloc: Global, width: u32) -> Result<Graph, Fail> {
    let net = forms_at(alloc, width)?;
    Ok(blast(alloc, &net)?)
}

/// The first width at which that netlist's graph has more nodes than it costs.
fn first_other_too_large(alloc: Global) -> Result<Option<u32>, Fail> {
    for (width, cost) in &OTHER_COSTS {
        if other_graph(alloc, *width)?.nodes.len() > *cost {
            return Ok(Some(*width));
        }
    }
    Ok(None)
}

#[test]
fn a_graph_of_other_words_is_no_larger_than_they_cost(rt: HostRuntime) -> Result<(), Fail> {
    assert_eq!(rt; first_other_too_large(rt.alloc())?, None);
    Ok(())
}

//! Graphs against steps on drawn operands, where there are too many to try all.

use crate::forms::forms_at;
use crate::graphs::{node_values, own_values};
use crate::operators::{netlist_at, push_number, stepped};
use eq_blast::{Graph, blast};
use eq_net::{Bits, Net};
use std::alloc::Global;
use std::test::Fail;

/// The next drawn number. Marsaglia, 'Xorshift RNGs', 2003.
pub fn draw(seed: &mut u64) -> u64 {
    let mut state = *seed;
    state ^= state << 13;
    state ^= state >> 7;
    state ^= state << 17;
    *seed = state;
    state
}

/// The next drawn number of 128 digits.
fn draw_wide(seed: &mut u64) -> u128 {
    let high = draw(seed);
    let low = draw(seed);
    u128::from(high) << 64 | u128::from(low)
}

/// How two operands are made of two drawn numbers.
#[derive(Clone, Copy)]
enum Pair {
    Drawn,
    Equal,
    OneBitApart,
    /// A shift by less than the width.
    Below,
    /// A shift by the width.
    Width,
    /// A shift by more than the width.
    Above,
    PowerOfTwo,
    HighestBit,
    AllOnesAndOne,
    FirstZero,
    SecondZero,
    BothZero,
}

const PAIRS: [Pair; 12] = [
    Pair::Drawn,
    Pair::Equal,
    Pair::OneBitApart,
    Pair::Below,
    Pair::Width,
    Pair::Above,
    Pair::PowerOfTwo,
    Pair::HighestBit,
    Pair::AllOnesAndOne,
    Pair::FirstZero,
    Pair::SecondZero,
    Pair::BothZero,
];

/// Two operands, of which a netlist takes the lowest `width` digits.
fn operands(pair: Pair, width: u32, a: u128, b: u128) -> (u128, u128) {
    let width = u128::from(width);
    let place = b % width.max(1);
    match pair {
        Pair::Drawn => (a, b),
        Pair::Equal => (a, a),
        Pair::OneBitApart => (a, a ^ 1 << (place % 128)),
        Pair::Below => (a, place),
        Pair::Width => (a, width),
        Pair::Above => (a, width.wrapping_add(1).wrapping_add(place)),
        Pair::PowerOfTwo => (a, 1 << (place % 128)),
        Pair::HighestBit => (a, 1 << (width.wrapping_sub(1) % 128)),
        Pair::AllOnesAndOne => (u128::MAX, 1),
        Pair::FirstZero => (0, b),
        Pair::SecondZero => (a, 0),
        Pair::BothZero => (0, 0),
    }
}

/// The values of two operands, and of a condition of so many bits.
fn draw_inputs(
    alloc: Global,
    pair: Pair,
    width: u32,
    condition: u32,
    seed: &mut u64,
) -> Result<Bits, Fail> {
    let first = draw_wide(seed);
    let second = draw_wide(seed);
    let (a, b) = operands(pair, width, first, second);
    let mut inputs = Bits::new(alloc);
    push_number(a, width, &mut inputs)?;
    push_number(b, width, &mut inputs)?;
    push_number(draw_wide(seed), condition, &mut inputs)?;
    Ok(inputs)
}

/// Whether a graph gives the bits of its netlist what a step gives them.
fn agrees(alloc: Global, net: &Net, graph: &Graph, inputs: &[bool]) -> Result<bool, Fail> {
    let nodes = node_values(alloc, graph.nodes.as_slice(), inputs, &[])?;
    let bits = own_values(alloc, graph.bits.as_slice(), nodes.as_slice())?;
    let step = stepped(alloc, net, inputs)?;
    Ok(bits.as_slice() == step.as_slice())
}

/// Whether it does so on drawn inputs.
fn agrees_once(
    alloc: Global,
    net: &Net,
    graph: &Graph,
    pair: Pair,
    width: u32,
    condition: u32,
    seed: &mut u64,
) -> Result<bool, Fail> {
    let inputs = draw_inputs(alloc, pair, width, condition, seed)?;
    agrees(alloc, net, graph, inputs.as_slice())
}

/// The first of 48 draws, four of each kind of pair, on which it doesn't.
fn draw_apart(
    alloc: Global,
    net: &Net,
    graph: &Graph,
    width: u32,
    condition: u32,
) -> Result<Option<usize>, Fail> {
    let mut seed = 0x9e37_79b9_7f4a_7c15;
    for round in 0..48_usize {
        let pair = PAIRS[round % PAIRS.len()];
        if !agrees_once(alloc, net, graph, pair, width, condition, &mut seed)? {
            return Ok(Some(round));
        }
    }
    Ok(None)
}

/// The first draw for the netlist of all operators.
fn operators_apart(alloc: Global, width: u32) -> Result<Option<usize>, Fail> {
    let net = netlist_at(alloc, width)?;
    let graph = blast(alloc, &net)?;
    draw_apart(alloc, &net, &graph, width, 0)
}

/// The first draw for the netlist of all other words, of which a choice has a condition of two bits.
fn others_apart(alloc: Global, width: u32) -> Result<Option<usize>, Fail> {
    let net = forms_at(alloc, width)?;
    let graph = blast(alloc, &net)?;
    draw_apart(alloc, &net, &graph, width, 2)
}

/// Widths, and how many bits the condition has: none in the netlist of all operators.
const WIDTHS: [(u32, u32); 5] = [(64, 0), (65, 0), (128, 0), (64, 2), (65, 2)];

fn width_apart(alloc: Global, width: u32, condition: u32) -> Result<Option<usize>, Fail> {
    if condition == 0 {
        operators_apart(alloc, width)
    } else {
        others_apart(alloc, width)
    }
}

/// The first row of the widths in which a graph differs from a step, and the draw.
fn first_apart(alloc: Global) -> Result<Option<(usize, usize)>, Fail> {
    for (row, (width, condition)) in WIDTHS.iter().enumerate() {
        if let Some(draw) = width_apart(alloc, *width, *condition)? {
            return Ok(Some((row, draw)));
        }
    }
    Ok(None)
}

#[test]
fn graphs_agree_with_steps_on_drawn_operands(rt: HostRuntime) -> Result<(), Fail> {
    assert_eq!(rt; first_apart(rt.alloc())?, None);
    Ok(())
}

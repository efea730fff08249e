//! What isn't an operator of two operands, in a step of a netlist and in its graph, against numbers.

use crate::forms::{forms_at, size};
use crate::graphs::graph_values;
use crate::operators::{has_number, push_number, stepped};
use eq_net::Bits;
use std::alloc::Global;
use std::test::Fail;

/// The width, two operands and a condition of two bits. Then the first operand negated, its negative, the first where the
/// condition isn't zero, else the second; the first with two zeros above; the first above the condition above the second; the
/// lowest bit of the negative, the highest of the negated one and the lowest of the chosen one; and whether the first has all
/// ones, some, an odd number, not all, none, an even number, and none.
type Row = (u32, u128, u128, u128, [u128; 13]);

const ROWS: [Row; 22] = [
    (1, 0, 1, 0, [1, 0, 1, 0, 1, 6, 0, 0, 0, 1, 1, 1, 1]),
    (1, 1, 0, 1, [0, 1, 1, 1, 10, 5, 1, 1, 1, 0, 0, 0, 0]),
    (1, 1, 0, 2, [0, 1, 1, 1, 12, 5, 1, 1, 1, 0, 0, 0, 0]),
    (1, 0, 1, 3, [1, 0, 0, 0, 7, 2, 0, 0, 0, 1, 1, 1, 1]),
    (2, 0, 3, 0, [3, 0, 3, 0, 3, 6, 0, 0, 0, 1, 1, 1, 1]),
    (2, 1, 2, 1, [2, 3, 1, 1, 22, 7, 0, 1, 1, 1, 0, 0, 0]),
    (2, 2, 1, 2, [1, 2, 2, 2, 41, 0, 0, 1, 1, 1, 0, 0, 0]),
    (2, 3, 0, 3, [0, 1, 3, 3, 60, 5, 1, 1, 0, 0, 0, 1, 0]),
    (3, 0, 7, 1, [7, 0, 0, 0, 15, 2, 0, 0, 0, 1, 1, 1, 1]),
    (3, 1, 6, 0, [6, 7, 6, 1, 38, 3, 0, 1, 1, 1, 0, 0, 0]),
    (3, 2, 5, 2, [5, 6, 2, 2, 85, 2, 0, 1, 1, 1, 0, 0, 0]),
    (3, 3, 4, 3, [4, 5, 3, 3, 124, 7, 0, 1, 0, 1, 0, 1, 0]),
    (3, 4, 3, 0, [3, 4, 3, 4, 131, 4, 0, 1, 1, 1, 0, 0, 0]),
    (3, 5, 2, 1, [2, 3, 5, 5, 170, 5, 0, 1, 0, 1, 0, 1, 0]),
    (3, 6, 1, 2, [1, 2, 6, 6, 209, 0, 0, 1, 0, 1, 0, 1, 0]),
    (3, 7, 0, 3, [0, 1, 7, 7, 248, 5, 1, 1, 1, 0, 0, 0, 0]),
    (8, 0, 255, 0, [255, 0, 255, 0, 255, 6, 0, 0, 0, 1, 1, 1, 1]),
    (8, 1, 254, 1, [254, 255, 1, 1, 1534, 7, 0, 1, 1, 1, 0, 0, 0]),
    (
        8,
        128,
        1,
        2,
        [127, 128, 128, 128, 131585, 0, 0, 1, 1, 1, 0, 0, 0],
    ),
    (
        8,
        200,
        100,
        0,
        [55, 56, 100, 200, 204900, 0, 0, 1, 1, 1, 0, 0, 0],
    ),
    (
        8,
        200,
        100,
        3,
        [55, 56, 200, 200, 205668, 0, 0, 1, 1, 1, 0, 0, 0],
    ),
    (
        8,
        255,
        0,
        2,
        [0, 1, 255, 255, 261632, 5, 1, 1, 0, 0, 0, 1, 0],
    ),
];

/// The values of the netlist's inputs.
fn inputs(alloc: Global, row: &Row) -> Result<Bits, Fail> {
    let (width, a, b, c, _) = row;
    let mut inputs = Bits::new(alloc);
    push_number(*a, *width, &mut inputs)?;
    push_number(*b, *width, &mut inputs)?;
    push_number(*c, 2, &mut inputs)?;
    Ok(inputs)
}

/// The first word whose result is another.
fn wrong_word(values: &[bool], row: &Row) -> Option<usize> {
    let (width, _, _, _, wanted) = row;
    let mut from = (*width as usize).saturating_mul(2).saturating_add(2);
    let mut word: u32 = 0;
    for wanted in wanted.iter() {
        let count = if *width <= 8 { size(*width, word) } else { 0 };
        if !has_number(values, from, count, *wanted) {
            return Some(word as usize);
        }
        from = from.saturating_add(count as usize);
        word = word.saturating_add(1);
    }
    None
}

/// The first word with a wrong result in a step.
fn wrong_in_step(alloc: Global, row: &Row) -> Result<Option<usize>, Fail> {
    let net = forms_at(alloc, row.0)?;
    let inputs = inputs(alloc, row)?;
    let values = stepped(alloc, &net, inputs.as_slice())?;
    Ok(wrong_word(values.as_slice(), row))
}

/// The first word with a wrong result in the graph.
fn wrong_in_graph(alloc: Global, row: &Row) -> Result<Option<usize>, Fail> {
    let net = forms_at(alloc, row.0)?;
    let inputs = inputs(alloc, row)?;
    let values = graph_values(alloc, &net, inputs.as_slice())?;
    Ok(wrong_word(values.as_slice(), row))
}

/// The first row with a wrong result in a step, and the word.
fn first_wrong_in_step(alloc: Global) -> Result<Option<(usize, usize)>, Fail> {
    for (number, row) in ROWS.iter().enumerate() {
        if let Some(word) = wrong_in_step(alloc, row)? {
            return Ok(Some((number, word)));
        }
    }
    Ok(None)
}

/// The first row with a wrong result in the graph, and the word.
fn first_wrong_in_graph(alloc: Global) -> Result<Option<(usize, usize)>, Fail> {
    for (number, row) in ROWS.iter().enumerate() {
        if let Some(word) = wrong_in_graph(alloc, row)? {
            return Ok(Some((number, word)));
        }
    }
    Ok(None)
}

#[test]
fn computes_each_other_word_in_a_step(rt: HostRuntime) -> Result<(), Fail> {
    assert_eq!(rt; first_wrong_in_step(rt.alloc())?, None);
    Ok(())
}

#[test]
fn a_graph_computes_each_other_word(rt: HostRuntime) -> Result<(), Fail> {
    assert_eq!(rt; first_wrong_in_graph(rt.alloc())?, None);
    Ok(())
}

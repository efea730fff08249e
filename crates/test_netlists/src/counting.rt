//! The graph of `reg [1:0] c = 0`, `c <= c + 1` and `y = c == 2` over three cycles.

use eq_bits::{Name, Node, Part, Scratch, eval};
use std::alloc::Global;
use std::test::Fail;
use test_parts::{Sides, is_table, part};

const NODES: [Node; 11] = [
    // c, bit by bit
    Node::Reg {
        next: 4,
        init: false,
    },
    Node::Reg {
        next: 7,
        init: false,
    },
    Node::Const(true),
    Node::Const(false),
    // the sum's bits, with the carry between them
    Node::Xor(0, 2),
    Node::And(0, 2),
    Node::Xor(1, 3),
    Node::Xor(5, 6),
    // y
    Node::Not(0),
    Node::And(1, 8),
    Node::Buf(9),
];

/// The graph as a part, whose other side is 0.
fn counter(alloc: Global) -> Result<Part, Fail> {
    let outputs = [Sides { gold: 10, gate: 3 }];
    if !is_table(0, &NODES, &outputs) {
        return Err(Fail::from("no part"));
    }
    let name = Name::read(alloc, b"y")?;
    Ok(part(alloc, &name, 0, &NODES, &outputs)?)
}

/// The bits of c in the next cycle and that of y in this one, where c has these.
fn step(alloc: Global, part: &Part, c: [bool; 2]) -> Result<([bool; 2], bool), Fail> {
    if part.register_count() != 2 || !part.inputs.is_empty() || part.nodes.len() != 11 {
        return Err(Fail::from("another part"));
    }
    let mut scratch = Scratch::new(alloc, part)?;
    eval(part, &c, &[], &mut scratch);
    Ok(([scratch.value(4), scratch.value(7)], scratch.value(10)))
}

/// The bits of c and of y in three cycles from c's initial value.
fn cycles(alloc: Global) -> Result<[([bool; 2], bool); 3], Fail> {
    let part = counter(alloc)?;
    let first = [false, false];
    let (second, y_first) = step(alloc, &part, first)?;
    let (third, y_second) = step(alloc, &part, second)?;
    let (_, y_third) = step(alloc, &part, third)?;
    Ok([(first, y_first), (second, y_second), (third, y_third)])
}

#[test]
fn counts_to_2_in_three_cycles(rt: HostRuntime) -> Result<(), Fail> {
    let wanted = [
        ([false, false], false),
        ([true, false], false),
        ([false, true], true),
    ];
    assert_eq!(rt; cycles(rt.alloc())?, wanted);
    Ok(())
}

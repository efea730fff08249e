//! Parts as tables. Node j of n has the variable j + 1 in the first frame, n + j + 1 in the second, and so on.

use eq_bits::{Name, Node, Part};
use std::alloc::Global;
use std::test::Fail;
use test_parts::{Sides, is_table, part};

pub(crate) struct Table {
    pub(crate) inputs: u32,
    pub(crate) nodes: &'static [Node],
    pub(crate) outputs: &'static [Sides],
}

/// The part of a table.
pub(crate) fn made(alloc: Global, table: &Table) -> Result<Part, Fail> {
    if !is_table(table.inputs, table.nodes, table.outputs) {
        return Err(Fail::from("no part"));
    }
    let name = Name::read(alloc, b"y")?;
    Ok(part(alloc, &name, table.inputs, table.nodes, table.outputs)?)
}

/// Gold's y is `a & b`, gate's is `~(~a | ~b)`.
pub(crate) const SMALLEST: Table = Table {
    inputs: 2,
    nodes: &[
        Node::Input(0),
        Node::Input(1),
        Node::And(0, 1),
        Node::Buf(2),
        Node::Not(0),
        Node::Not(1),
        Node::Not(4),
        Node::Not(5),
        Node::And(6, 7),
        Node::Not(8),
        Node::Not(9),
        Node::Buf(10),
    ],
    outputs: &[Sides { gold: 3, gate: 11 }],
};

/// Gold's y is `a & b`, gate's is `a | b`.
pub(crate) const AND_AND_OR: Table = Table {
    inputs: 2,
    nodes: &[
        Node::Input(0),
        Node::Input(1),
        Node::And(0, 1),
        Node::Buf(2),
        Node::Not(0),
        Node::Not(1),
        Node::And(4, 5),
        Node::Not(6),
        Node::Buf(7),
    ],
    outputs: &[Sides { gold: 3, gate: 8 }],
};

/// Each kind of node, with operands in both orders, a register of each initial value, and a next node on either side.
pub(crate) const KINDS: Table = Table {
    inputs: 3,
    nodes: &[
        Node::Input(0),
        Node::Input(1),
        Node::Input(2),
        Node::Const(true),
        Node::Const(false),
        Node::Not(0),
        Node::And(1, 0),
        Node::Xor(2, 1),
        Node::Mux(0, 1, 2),
        Node::Buf(8),
        Node::Reg {
            next: 6,
            init: true,
        },
        Node::Reg {
            next: 12,
            init: false,
        },
        Node::Xor(10, 11),
    ],
    outputs: &[Sides { gold: 9, gate: 12 }],
};

/// Operands that are one node.
pub(crate) const REPEATS: Table = Table {
    inputs: 2,
    nodes: &[
        Node::Input(0),
        Node::Input(1),
        Node::And(0, 0),
        Node::Xor(0, 0),
        Node::Mux(0, 0, 1),
        Node::Mux(1, 0, 0),
        Node::Mux(0, 1, 0),
    ],
    outputs: &[Sides { gold: 2, gate: 3 }],
};

pub(crate) const TWO_OUTPUTS: Table = Table {
    inputs: 2,
    nodes: &[
        Node::Input(0),
        Node::Input(1),
        Node::And(0, 1),
        Node::Xor(0, 1),
    ],
    outputs: &[Sides { gold: 0, gate: 2 }, Sides { gold: 1, gate: 3 }],
};

/// The outputs' cones have inputs alone, and a third input has no node.
pub(crate) const INPUTS_ALONE: Table = Table {
    inputs: 3,
    nodes: &[Node::Input(0), Node::Input(1)],
    outputs: &[Sides { gold: 0, gate: 1 }],
};

/// The first output has one node on both sides.
pub(crate) const SECOND_DIFFERS: Table = Table {
    inputs: 2,
    nodes: &[Node::Input(0), Node::Input(1)],
    outputs: &[Sides { gold: 0, gate: 0 }, Sides { gold: 0, gate: 1 }],
};

pub(crate) const ONE_NODE: Table = Table {
    inputs: 1,
    nodes: &[Node::Input(0)],
    outputs: &[Sides { gold: 0, gate: 0 }],
};

pub(crate) const NOTHING: Table = Table {
    inputs: 0,
    nodes: &[],
    outputs: &[],
};

/// A register that stays at 0, against 0.
pub(crate) const STAYS_AT_0: Table = Table {
    inputs: 0,
    nodes: &[
        Node::Reg {
            next: 0,
            init: false,
        },
        Node::Const(false),
    ],
    outputs: &[Sides { gold: 0, gate: 1 }],
};

/// The same register at 1.
pub(crate) const STAYS_AT_1: Table = Table {
    inputs: 0,
    nodes: &[
        Node::Reg {
            next: 0,
            init: true,
        },
        Node::Const(false),
    ],
    outputs: &[Sides { gold: 0, gate: 1 }],
};

/// Two registers that change in each cycle.
pub(crate) const TOGGLES: Table = Table {
    inputs: 0,
    nodes: &[
        Node::Reg {
            next: 1,
            init: false,
        },
        Node::Not(0),
        Node::Reg {
            next: 3,
            init: false,
        },
        Node::Not(2),
    ],
    outputs: &[Sides { gold: 0, gate: 2 }],
};

/// An input two cycles before, on both sides.
pub(crate) const DELAYS: Table = Table {
    inputs: 1,
    nodes: &[
        Node::Input(0),
        Node::Reg {
            next: 0,
            init: false,
        },
        Node::Reg {
            next: 1,
            init: false,
        },
        Node::Reg {
            next: 0,
            init: false,
        },
        Node::Reg {
            next: 3,
            init: false,
        },
    ],
    outputs: &[Sides { gold: 2, gate: 4 }],
};

/// Whether a counter of two bits is at 2, against 0.
pub(crate) const COUNTER: Table = Table {
    inputs: 0,
    nodes: &[
        Node::Reg {
            next: 2,
            init: false,
        },
        Node::Reg {
            next: 3,
            init: false,
        },
        Node::Not(0),
        Node::Xor(0, 1),
        Node::And(1, 2),
        Node::Const(false),
    ],
    outputs: &[Sides { gold: 4, gate: 5 }],
};

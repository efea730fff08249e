//! Parts without registers: netlists, lines of a configuration, and the nodes.

use crate::cases::wanted::{Row, Wanted};
use eq_bits::Node::{And, Buf, Input, Not};

pub const ROWS: [Row; 13] = [
    // `a & b` and `~(~a | ~b)`: each pair of operands has one And at most
    (
        10,
        11,
        b"",
        0,
        Wanted {
            name: b"y",
            inputs: &[b"a", b"b"],
            nodes: &[
                Input(0),
                Input(1),
                And(0, 1),
                Buf(2),
                Not(0),
                Not(4),
                Not(1),
                Not(6),
                And(5, 7),
                Not(8),
                Not(9),
                Buf(10),
            ],
            outputs: &[(b"y", 3, 11)],
        },
    ),
    // `n` is paired, so it is an input of the part of `y`, which both sides read. They share all gates
    (
        12,
        13,
        b"",
        0,
        Wanted {
            name: b"y",
            inputs: &[b"c", b"n"],
            nodes: &[
                Input(0),
                Input(1),
                Not(1),
                Not(0),
                And(2, 3),
                Not(4),
                Buf(5),
                Buf(5),
            ],
            outputs: &[(b"y", 6, 7)],
        },
    ),
    (
        12,
        13,
        b"",
        1,
        Wanted {
            name: b"n",
            inputs: &[b"a", b"b"],
            nodes: &[
                Input(0),
                Input(1),
                And(0, 1),
                Buf(2),
                Not(0),
                Not(4),
                Not(1),
                Not(6),
                And(5, 7),
                Not(8),
                Not(9),
                Buf(10),
            ],
            outputs: &[(b"n", 3, 11)],
        },
    ),
    // gold's `p` reads `q`, and gate's `q` reads `p`
    (
        0,
        1,
        b"",
        0,
        Wanted {
            name: b"p",
            inputs: &[b"x", b"q"],
            nodes: &[
                Input(0),
                Input(1),
                Not(0),
                Not(1),
                And(2, 3),
                Not(4),
                And(0, 5),
                Buf(6),
                Buf(0),
            ],
            outputs: &[(b"p", 7, 8)],
        },
    ),
    (
        0,
        1,
        b"",
        1,
        Wanted {
            name: b"q",
            inputs: &[b"x", b"p"],
            nodes: &[
                Input(0),
                Input(1),
                Buf(0),
                Not(0),
                And(0, 1),
                Not(4),
                And(3, 5),
                Not(6),
                Buf(7),
            ],
            outputs: &[(b"q", 2, 8)],
        },
    ),
    // `n & a` and `n`, where `n` is free, and where it is an output of the partition
    (
        14,
        15,
        b"",
        0,
        Wanted {
            name: b"y",
            inputs: &[b"a", b"n"],
            nodes: &[Input(0), Input(1), And(0, 1), Buf(2), Buf(1)],
            outputs: &[(b"y", 3, 4)],
        },
    ),
    (
        14,
        15,
        b"",
        1,
        Wanted {
            name: b"n",
            inputs: &[b"a"],
            nodes: &[Input(0), Buf(0), Buf(0)],
            outputs: &[(b"n", 1, 2)],
        },
    ),
    (
        14,
        15,
        b"[partition]\nmerge [ny]\n",
        0,
        Wanted {
            name: b"y",
            inputs: &[b"a"],
            nodes: &[Input(0), Buf(0), And(0, 1), Buf(2), Buf(0), Buf(4)],
            outputs: &[(b"y", 3, 5), (b"n", 1, 4)],
        },
    ),
    // a path of three wires
    (
        3,
        3,
        b"[partition]\npath m y\n",
        0,
        Wanted {
            name: b"y",
            inputs: &[b"a"],
            nodes: &[Input(0), Buf(0), Buf(1), Buf(2), Buf(0), Buf(4), Buf(5)],
            outputs: &[(b"y", 3, 6), (b"m", 1, 4), (b"n", 2, 5)],
        },
    ),
    // an inverted pair: as an input, which gate reads negated, as an output, and where the part doesn't read it
    (
        3,
        3,
        b"[match]\ngold-match m ~m\n",
        2,
        Wanted {
            name: b"n",
            inputs: &[b"m"],
            nodes: &[Input(0), Buf(0), Not(0), Buf(2)],
            outputs: &[(b"n", 1, 3)],
        },
    ),
    (
        3,
        3,
        b"[match]\ngold-match m ~m\n",
        1,
        Wanted {
            name: b"m",
            inputs: &[b"a"],
            nodes: &[Input(0), Buf(0), Buf(0), Not(2)],
            outputs: &[(b"m", 1, 3)],
        },
    ),
    (
        3,
        3,
        b"[match]\ngold-match m ~m\n",
        0,
        Wanted {
            name: b"y",
            inputs: &[b"n"],
            nodes: &[Input(0), Buf(0), Buf(0)],
            outputs: &[(b"y", 1, 2)],
        },
    ),
    // without the pairs of `m` and `n` the cones go on to `a`
    (
        3,
        3,
        b"[match]\ngold-nomatch *\n",
        0,
        Wanted {
            name: b"y",
            inputs: &[b"a"],
            nodes: &[Input(0), Buf(0), Buf(1), Buf(2), Buf(0), Buf(4), Buf(5)],
            outputs: &[(b"y", 3, 6)],
        },
    ),
];

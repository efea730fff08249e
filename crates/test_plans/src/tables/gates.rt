//! The cells of netlists without registers.

use crate::types::{Arg, Cell, Form};
use eq_net::{Dir, WordOp};

/// `y = a & b`.
pub const AND_GOLD: [Cell; 3] = [
    Cell {
        name: b"a",
        width: 1,
        dir: Dir::Input,
        auto: false,
        register: false,
        word: Form::One(Arg::Bits(&[false])),
        rank: 0,
    },
    Cell {
        name: b"b",
        width: 1,
        dir: Dir::Input,
        auto: false,
        register: false,
        word: Form::One(Arg::Bits(&[false])),
        rank: 0,
    },
    Cell {
        name: b"y",
        width: 1,
        dir: Dir::Output,
        auto: false,
        register: false,
        word: Form::Two(WordOp::And, Arg::Net(0, 1), Arg::Net(1, 1)),
        rank: 1,
    },
];

/// `y = ~(~a | ~b)`.
pub const AND_GATE: [Cell; 3] = [
    Cell {
        name: b"a",
        width: 1,
        dir: Dir::Input,
        auto: false,
        register: false,
        word: Form::One(Arg::Bits(&[false])),
        rank: 0,
    },
    Cell {
        name: b"b",
        width: 1,
        dir: Dir::Input,
        auto: false,
        register: false,
        word: Form::One(Arg::Bits(&[false])),
        rank: 0,
    },
    Cell {
        name: b"y",
        width: 1,
        dir: Dir::Output,
        auto: false,
        register: false,
        word: Form::NotTwo(WordOp::Or, Arg::Not(0, 1), Arg::Not(1, 1)),
        rank: 1,
    },
];

/// `n = a & b` and `y = n | c`.
pub const OR_GOLD: [Cell; 5] = [
    Cell {
        name: b"a",
        width: 1,
        dir: Dir::Input,
        auto: false,
        register: false,
        word: Form::One(Arg::Bits(&[false])),
        rank: 0,
    },
    Cell {
        name: b"b",
        width: 1,
        dir: Dir::Input,
        auto: false,
        register: false,
        word: Form::One(Arg::Bits(&[false])),
        rank: 0,
    },
    Cell {
        name: b"c",
        width: 1,
        dir: Dir::Input,
        auto: false,
        register: false,
        word: Form::One(Arg::Bits(&[false])),
        rank: 0,
    },
    Cell {
        name: b"y",
        width: 1,
        dir: Dir::Output,
        auto: false,
        register: false,
        word: Form::Two(WordOp::Or, Arg::Net(4, 1), Arg::Net(2, 1)),
        rank: 2,
    },
    Cell {
        name: b"n",
        width: 1,
        dir: Dir::Inner,
        auto: false,
        register: false,
        word: Form::Two(WordOp::And, Arg::Net(0, 1), Arg::Net(1, 1)),
        rank: 1,
    },
];

/// `n = ~(~a | ~b)` and `y = c | n`.
pub const OR_GATE: [Cell; 5] = [
    Cell {
        name: b"a",
        width: 1,
        dir: Dir::Input,
        auto: false,
        register: false,
        word: Form::One(Arg::Bits(&[false])),
        rank: 0,
    },
    Cell {
        name: b"b",
        width: 1,
        dir: Dir::Input,
        auto: false,
        register: false,
        word: Form::One(Arg::Bits(&[false])),
        rank: 0,
    },
    Cell {
        name: b"c",
        width: 1,
        dir: Dir::Input,
        auto: false,
        register: false,
        word: Form::One(Arg::Bits(&[false])),
        rank: 0,
    },
    Cell {
        name: b"y",
        width: 1,
        dir: Dir::Output,
        auto: false,
        register: false,
        word: Form::Two(WordOp::Or, Arg::Net(2, 1), Arg::Net(4, 1)),
        rank: 2,
    },
    Cell {
        name: b"n",
        width: 1,
        dir: Dir::Inner,
        auto: false,
        register: false,
        word: Form::NotTwo(WordOp::Or, Arg::Not(0, 1), Arg::Not(1, 1)),
        rank: 1,
    },
];

/// `n = a` and `y = n & a`.
pub const JOINT_GOLD: [Cell; 3] = [
    Cell {
        name: b"a",
        width: 1,
        dir: Dir::Input,
        auto: false,
        register: false,
        word: Form::One(Arg::Bits(&[false])),
        rank: 0,
    },
    Cell {
        name: b"y",
        width: 1,
        dir: Dir::Output,
        auto: false,
        register: false,
        word: Form::Two(WordOp::And, Arg::Net(2, 1), Arg::Net(0, 1)),
        rank: 2,
    },
    Cell {
        name: b"n",
        width: 1,
        dir: Dir::Inner,
        auto: false,
        register: false,
        word: Form::One(Arg::Net(0, 1)),
        rank: 1,
    },
];

/// `n = a` and `y = n`.
pub const JOINT_GATE: [Cell; 3] = [
    Cell {
        name: b"a",
        width: 1,
        dir: Dir::Input,
        auto: false,
        register: false,
        word: Form::One(Arg::Bits(&[false])),
        rank: 0,
    },
    Cell {
        name: b"y",
        width: 1,
        dir: Dir::Output,
        auto: false,
        register: false,
        word: Form::One(Arg::Net(2, 1)),
        rank: 2,
    },
    Cell {
        name: b"n",
        width: 1,
        dir: Dir::Inner,
        auto: false,
        register: false,
        word: Form::One(Arg::Net(0, 1)),
        rank: 1,
    },
];

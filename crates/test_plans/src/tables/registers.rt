//! The cells of netlists with registers.

use crate::types::{Arg, Cell, Form};
use eq_net::{Dir, WordOp};

/// The register `c` counts, and `y` says whether it is 2.
pub const COUNTER_GOLD: [Cell; 3] = [
    Cell {
        name: b"clk",
        width: 1,
        dir: Dir::Input,
        auto: false,
        register: false,
        word: Form::One(Arg::Bits(&[false])),
        rank: 0,
    },
    Cell {
        name: b"y",
        width: 1,
        dir: Dir::Output,
        auto: false,
        register: false,
        word: Form::Two(WordOp::Eq, Arg::Net(2, 2), Arg::Bits(&[false, true])),
        rank: 1,
    },
    Cell {
        name: b"c",
        width: 2,
        dir: Dir::Inner,
        auto: false,
        register: true,
        word: Form::One(Arg::Sum(2, 2, &[true, false])),
        rank: 1,
    },
];

/// `y = 0`.
pub const COUNTER_GATE: [Cell; 2] = [
    Cell {
        name: b"clk",
        width: 1,
        dir: Dir::Input,
        auto: false,
        register: false,
        word: Form::One(Arg::Bits(&[false])),
        rank: 0,
    },
    Cell {
        name: b"y",
        width: 1,
        dir: Dir::Output,
        auto: false,
        register: false,
        word: Form::One(Arg::Bits(&[false])),
        rank: 1,
    },
];

/// The register `q` becomes `_00_ = q + 1` where `en.q = en` is 1.
pub const ENABLED_GOLD: [Cell; 5] = [
    Cell {
        name: b"clk",
        width: 1,
        dir: Dir::Input,
        auto: false,
        register: false,
        word: Form::One(Arg::Bits(&[false])),
        rank: 0,
    },
    Cell {
        name: b"en",
        width: 1,
        dir: Dir::Input,
        auto: false,
        register: false,
        word: Form::One(Arg::Bits(&[false])),
        rank: 0,
    },
    Cell {
        name: b"q",
        width: 2,
        dir: Dir::Output,
        auto: false,
        register: true,
        word: Form::Choice(Arg::Net(4, 1), Arg::Net(3, 2), Arg::Net(2, 2)),
        rank: 2,
    },
    Cell {
        name: b"_00_",
        width: 2,
        dir: Dir::Inner,
        auto: true,
        register: false,
        word: Form::One(Arg::Sum(2, 2, &[true, false])),
        rank: 1,
    },
    Cell {
        name: b"en.q",
        width: 1,
        dir: Dir::Inner,
        auto: false,
        register: false,
        word: Form::One(Arg::Net(1, 1)),
        rank: 1,
    },
];

/// The register `q` becomes `_00_`, which is `q + 1` where `en.q = en` is 1, and else `q`.
pub const ENABLED_GATE: [Cell; 5] = [
    Cell {
        name: b"clk",
        width: 1,
        dir: Dir::Input,
        auto: false,
        register: false,
        word: Form::One(Arg::Bits(&[false])),
        rank: 0,
    },
    Cell {
        name: b"en",
        width: 1,
        dir: Dir::Input,
        auto: false,
        register: false,
        word: Form::One(Arg::Bits(&[false])),
        rank: 0,
    },
    Cell {
        name: b"q",
        width: 2,
        dir: Dir::Output,
        auto: false,
        register: true,
        word: Form::One(Arg::Net(3, 2)),
        rank: 3,
    },
    Cell {
        name: b"_00_",
        width: 2,
        dir: Dir::Inner,
        auto: true,
        register: false,
        word: Form::Choice(
            Arg::Net(4, 1),
            Arg::Sum(2, 2, &[true, false]),
            Arg::Net(2, 2),
        ),
        rank: 2,
    },
    Cell {
        name: b"en.q",
        width: 1,
        dir: Dir::Inner,
        auto: false,
        register: false,
        word: Form::One(Arg::Net(1, 1)),
        rank: 1,
    },
];

/// The register `cnt_q` counts, and `q` is its value.
pub const NAMED_GOLD: [Cell; 3] = [
    Cell {
        name: b"clk",
        width: 1,
        dir: Dir::Input,
        auto: false,
        register: false,
        word: Form::One(Arg::Bits(&[false])),
        rank: 0,
    },
    Cell {
        name: b"q",
        width: 2,
        dir: Dir::Output,
        auto: false,
        register: false,
        word: Form::One(Arg::Net(2, 2)),
        rank: 1,
    },
    Cell {
        name: b"cnt_q",
        width: 2,
        dir: Dir::Inner,
        auto: false,
        register: true,
        word: Form::One(Arg::Sum(2, 2, &[true, false])),
        rank: 1,
    },
];

/// The same under another name.
pub const NAMED_GATE: [Cell; 3] = [
    Cell {
        name: b"clk",
        width: 1,
        dir: Dir::Input,
        auto: false,
        register: false,
        word: Form::One(Arg::Bits(&[false])),
        rank: 0,
    },
    Cell {
        name: b"q",
        width: 2,
        dir: Dir::Output,
        auto: false,
        register: false,
        word: Form::One(Arg::Net(2, 2)),
        rank: 1,
    },
    Cell {
        name: b"cnt_reg",
        width: 2,
        dir: Dir::Inner,
        auto: false,
        register: true,
        word: Form::One(Arg::Sum(2, 2, &[true, false])),
        rank: 1,
    },
];

//! The wires of chains.

use crate::types::Wire;
use eq_net::Dir;

/// `m` reads `a`, `n` reads `m`, and `y` reads `n`.
pub const LINE: [Wire; 4] = [
    Wire {
        name: b"a",
        dir: Dir::Input,
        auto: false,
        reads: 0,
        register: false,
        rank: 0,
    },
    Wire {
        name: b"y",
        dir: Dir::Output,
        auto: false,
        reads: 3,
        register: false,
        rank: 3,
    },
    Wire {
        name: b"m",
        dir: Dir::Inner,
        auto: false,
        reads: 0,
        register: false,
        rank: 1,
    },
    Wire {
        name: b"n",
        dir: Dir::Inner,
        auto: false,
        reads: 2,
        register: false,
        rank: 2,
    },
];

/// The same, but that `y` reads `m`.
pub const SHORTER: [Wire; 4] = [
    Wire {
        name: b"a",
        dir: Dir::Input,
        auto: false,
        reads: 0,
        register: false,
        rank: 0,
    },
    Wire {
        name: b"y",
        dir: Dir::Output,
        auto: false,
        reads: 2,
        register: false,
        rank: 2,
    },
    Wire {
        name: b"m",
        dir: Dir::Inner,
        auto: false,
        reads: 0,
        register: false,
        rank: 1,
    },
    Wire {
        name: b"n",
        dir: Dir::Inner,
        auto: false,
        reads: 2,
        register: false,
        rank: 2,
    },
];

/// Besides, `w` reads `m`, `_0_` reads `n`, `z` reads `_0_`, and the register `r` reads `w`.
pub const BRANCHES: [Wire; 8] = [
    Wire {
        name: b"a",
        dir: Dir::Input,
        auto: false,
        reads: 0,
        register: false,
        rank: 0,
    },
    Wire {
        name: b"y",
        dir: Dir::Output,
        auto: false,
        reads: 3,
        register: false,
        rank: 3,
    },
    Wire {
        name: b"m",
        dir: Dir::Inner,
        auto: false,
        reads: 0,
        register: false,
        rank: 1,
    },
    Wire {
        name: b"n",
        dir: Dir::Inner,
        auto: false,
        reads: 2,
        register: false,
        rank: 2,
    },
    Wire {
        name: b"w",
        dir: Dir::Inner,
        auto: false,
        reads: 2,
        register: false,
        rank: 2,
    },
    Wire {
        name: b"_0_",
        dir: Dir::Inner,
        auto: true,
        reads: 3,
        register: false,
        rank: 3,
    },
    Wire {
        name: b"z",
        dir: Dir::Output,
        auto: false,
        reads: 5,
        register: false,
        rank: 4,
    },
    Wire {
        name: b"r",
        dir: Dir::Inner,
        auto: false,
        reads: 4,
        register: true,
        rank: 0,
    },
];

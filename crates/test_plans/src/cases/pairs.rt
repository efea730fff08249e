//! Designs, lines of match sections, and the pairs of nets.

/// A net of gold, a net of gate, how many bits they have, whether they are inputs, and whether the pair is inverted.
pub type NetPair = (u32, u32, u32, bool, bool);

/// The designs of gold and of gate, the lines behind the frame, and the pairs of nets.
pub type Row = (u8, u8, &'static [u8], &'static [NetPair]);

pub const ROWS: [Row; 25] = [
    // ports by name, bits by position, and other nets of one name; not `_00_`, and not `u`, which gold leaves undriven
    (
        0,
        1,
        b"",
        &[
            (0, 1, 4, true, false),
            (1, 0, 1, true, false),
            (2, 2, 1, false, false),
            (4, 4, 2, false, false),
        ],
    ),
    // a net by a template
    (
        0,
        1,
        b"[match]\ngold-match *_q %1_reg\n",
        &[
            (0, 1, 4, true, false),
            (1, 0, 1, true, false),
            (2, 2, 1, false, false),
            (3, 3, 1, false, false),
            (4, 4, 2, false, false),
        ],
    ),
    (
        0,
        1,
        b"[match]\ngate-match *_reg %1_q\n",
        &[
            (0, 1, 4, true, false),
            (1, 0, 1, true, false),
            (2, 2, 1, false, false),
            (3, 3, 1, false, false),
            (4, 4, 2, false, false),
        ],
    ),
    // inverted
    (
        0,
        1,
        b"[match]\ngold-match r_q ~n\n",
        &[
            (0, 1, 4, true, false),
            (1, 0, 1, true, false),
            (2, 2, 1, false, false),
            (3, 7, 1, false, true),
            (4, 4, 2, false, false),
        ],
    ),
    (
        0,
        1,
        b"[match]\ngate-match n ~r_q\n",
        &[
            (0, 1, 4, true, false),
            (1, 0, 1, true, false),
            (2, 2, 1, false, false),
            (3, 7, 1, false, true),
            (4, 4, 2, false, false),
        ],
    ),
    // `nomatch`, which sees no ports
    (
        0,
        1,
        b"[match]\ngold-nomatch s\n",
        &[
            (0, 1, 4, true, false),
            (1, 0, 1, true, false),
            (2, 2, 1, false, false),
        ],
    ),
    (
        0,
        1,
        b"[match]\ngate-nomatch [st]\n",
        &[
            (0, 1, 4, true, false),
            (1, 0, 1, true, false),
            (2, 2, 1, false, false),
        ],
    ),
    (
        0,
        1,
        b"[match]\ngold-nomatch *\n",
        &[
            (0, 1, 4, true, false),
            (1, 0, 1, true, false),
            (2, 2, 1, false, false),
        ],
    ),
    (
        0,
        1,
        b"[match]\ngate-nomatch *\n",
        &[
            (0, 1, 4, true, false),
            (1, 0, 1, true, false),
            (2, 2, 1, false, false),
        ],
    ),
    // a line may name what a tool made
    (
        0,
        1,
        b"[match]\ngold-match _00_ _00_\n",
        &[
            (0, 1, 4, true, false),
            (1, 0, 1, true, false),
            (2, 2, 1, false, false),
            (4, 4, 2, false, false),
            (5, 5, 1, false, false),
        ],
    ),
    // a line that names no net, an undriven one, a port, or one of another width
    (
        0,
        1,
        b"[match]\ngold-match r_q none\n",
        &[
            (0, 1, 4, true, false),
            (1, 0, 1, true, false),
            (2, 2, 1, false, false),
            (4, 4, 2, false, false),
        ],
    ),
    (
        0,
        1,
        b"[match]\ngold-match u u\n",
        &[
            (0, 1, 4, true, false),
            (1, 0, 1, true, false),
            (2, 2, 1, false, false),
            (4, 4, 2, false, false),
        ],
    ),
    (
        0,
        1,
        b"[match]\ngate-match u u\n",
        &[
            (0, 1, 4, true, false),
            (1, 0, 1, true, false),
            (2, 2, 1, false, false),
            (4, 4, 2, false, false),
        ],
    ),
    (
        0,
        1,
        b"[match]\ngold-match b n\n",
        &[
            (0, 1, 4, true, false),
            (1, 0, 1, true, false),
            (2, 2, 1, false, false),
            (4, 4, 2, false, false),
        ],
    ),
    (
        0,
        1,
        b"[match]\ngold-match r_q y\n",
        &[
            (0, 1, 4, true, false),
            (1, 0, 1, true, false),
            (2, 2, 1, false, false),
            (4, 4, 2, false, false),
        ],
    ),
    (
        0,
        1,
        b"[match]\ngold-match s n\n",
        &[
            (0, 1, 4, true, false),
            (1, 0, 1, true, false),
            (2, 2, 1, false, false),
            (4, 4, 2, false, false),
        ],
    ),
    // nets of one name
    (
        2,
        2,
        b"",
        &[
            (0, 0, 1, true, false),
            (1, 1, 1, false, false),
            (2, 2, 1, false, false),
            (3, 3, 1, false, false),
        ],
    ),
    // a net is taken away from two pairs
    (
        2,
        2,
        b"[match]\ngold-match p q\n",
        &[
            (0, 0, 1, true, false),
            (1, 1, 1, false, false),
            (2, 3, 1, false, false),
        ],
    ),
    (
        2,
        2,
        b"[match]\ngate-match p q\n",
        &[
            (0, 0, 1, true, false),
            (1, 1, 1, false, false),
            (3, 2, 1, false, false),
        ],
    ),
    (
        2,
        2,
        b"[match]\ngold-match [pq] q\n",
        &[
            (0, 0, 1, true, false),
            (1, 1, 1, false, false),
            (3, 3, 1, false, false),
        ],
    ),
    // lines in their order
    (
        2,
        2,
        b"[match]\ngold-match p q\ngold-match q p\n",
        &[
            (0, 0, 1, true, false),
            (1, 1, 1, false, false),
            (2, 3, 1, false, false),
            (3, 2, 1, false, false),
        ],
    ),
    (
        2,
        2,
        b"[match]\ngold-nomatch p\ngold-match p ~p\n",
        &[
            (0, 0, 1, true, false),
            (1, 1, 1, false, false),
            (2, 2, 1, false, true),
            (3, 3, 1, false, false),
        ],
    ),
    (
        2,
        2,
        b"[match]\ngold-match p ~p\ngold-nomatch p\n",
        &[
            (0, 0, 1, true, false),
            (1, 1, 1, false, false),
            (3, 3, 1, false, false),
        ],
    ),
    // sections for the top `t` of gold, and not for the top `u` of gate
    (
        2,
        2,
        b"[match u]\ngold-nomatch *\n",
        &[
            (0, 0, 1, true, false),
            (1, 1, 1, false, false),
            (2, 2, 1, false, false),
            (3, 3, 1, false, false),
        ],
    ),
    (
        2,
        2,
        b"[match t]\ngold-nomatch p\n[match u]\ngold-nomatch q\n[match ?]\ngate-match q ~q\n",
        &[
            (0, 0, 1, true, false),
            (1, 1, 1, false, false),
            (3, 3, 1, false, true),
        ],
    ),
];

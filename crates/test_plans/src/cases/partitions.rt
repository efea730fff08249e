//! Designs, lines of collect and partition sections, and the partitions.

/// A partition's name and its outputs.
pub type Part = (&'static [u8], &'static [u32]);

/// A design on both sides, the lines behind the frame, and the partitions.
pub type Row = (u8, &'static [u8], &'static [Part]);

/// Design 0 has inputs at positions 0 to 4, `y` at 5, `r_q` at 6 and `s` at 7 and 8; design 1 has `u` at 9 and `n` at 10
/// besides. Design 3 has `a` at 0 and the chain `y`, `m`, `n` at 1 to 3, and design 4 has `w`, `z` and `r` at 4 to 6 besides.
pub const ROWS: [Row; 41] = [
    // a group each, under the net's name
    (0, b"", &[(b"y", &[5]), (b"r_q", &[6]), (b"s", &[7, 8])]),
    (
        0,
        b"[collect]\njoin [ys]\n",
        &[(b"y", &[5, 7, 8]), (b"r_q", &[6])],
    ),
    // and under the bit's name with its index, where the partition doesn't hold the net
    (
        0,
        b"[collect]\nsolo s\n",
        &[
            (b"y", &[5]),
            (b"r_q", &[6]),
            (b"s[0]", &[7]),
            (b"s[1]", &[8]),
        ],
    ),
    (
        1,
        b"[collect]\nsolo s\n",
        &[
            (b"y", &[5]),
            (b"r_reg", &[6]),
            (b"s[1]", &[7]),
            (b"s[0]", &[8]),
            (b"u", &[9]),
            (b"n", &[10]),
        ],
    ),
    // `merge`
    (
        0,
        b"[partition]\nmerge [ys]\n",
        &[(b"y", &[5, 7, 8]), (b"r_q", &[6])],
    ),
    (
        0,
        b"[partition]\nmerge [rs]*\n",
        &[(b"y", &[5]), (b"r_q", &[6, 7, 8])],
    ),
    (0, b"[partition]\nmerge *\n", &[(b"y", &[5, 6, 7, 8])]),
    (
        0,
        b"[collect]\nsolo s\n[partition]\nmerge s\n",
        &[(b"y", &[5]), (b"r_q", &[6]), (b"s", &[7, 8])],
    ),
    (
        0,
        b"[partition]\nmerge [ys]\nmerge [rs]*\n",
        &[(b"y", &[5, 6, 7, 8])],
    ),
    // an input that is hit touches no partition
    (
        0,
        b"[partition]\nname y out\nmerge [ay]\n",
        &[(b"out", &[5]), (b"r_q", &[6]), (b"s", &[7, 8])],
    ),
    // `name`, with what the pattern captures
    (
        0,
        b"[partition]\nname s state\n",
        &[(b"y", &[5]), (b"r_q", &[6]), (b"state", &[7, 8])],
    ),
    (
        0,
        b"[partition]\nname *_q %1_reg\n",
        &[(b"y", &[5]), (b"r_reg", &[6]), (b"s", &[7, 8])],
    ),
    (
        0,
        b"[partition]\nname ?_* %2_%1\n",
        &[(b"y", &[5]), (b"q_r", &[6]), (b"s", &[7, 8])],
    ),
    (
        0,
        b"[collect]\nsolo s\n[partition]\nname s part\n",
        &[
            (b"y", &[5]),
            (b"r_q", &[6]),
            (b"part", &[7]),
            (b"part", &[8]),
        ],
    ),
    (
        0,
        b"[partition]\nname s one\nname s two\n",
        &[(b"y", &[5]), (b"r_q", &[6]), (b"two", &[7, 8])],
    ),
    (
        0,
        b"[partition]\nname a in\n",
        &[(b"y", &[5]), (b"r_q", &[6]), (b"s", &[7, 8])],
    ),
    // the captures of the first output that is hit
    (
        0,
        b"[partition]\nmerge *\nname * part_%1\n",
        &[(b"part_y", &[5, 6, 7, 8])],
    ),
    (
        0,
        b"[partition]\nmerge *\nname r* r%1\n",
        &[(b"r_q", &[5, 6, 7, 8])],
    ),
    (
        1,
        b"[partition]\nmerge *\nname ?_* %2_%1\n",
        &[(b"reg_r", &[5, 6, 7, 8, 9, 10])],
    ),
    (
        1,
        b"[partition]\nmerge [snu]\nname ? part_%1\n",
        &[
            (b"part_y", &[5]),
            (b"r_reg", &[6]),
            (b"part_s", &[7, 8, 9, 10]),
        ],
    ),
    // an empty text leaves the name
    (
        0,
        b"[partition]\nname s* %1\n",
        &[(b"y", &[5]), (b"r_q", &[6]), (b"s", &[7, 8])],
    ),
    (
        0,
        b"[partition]\nname s one\nname s* %1\n",
        &[(b"y", &[5]), (b"r_q", &[6]), (b"one", &[7, 8])],
    ),
    // also where a later output would give another
    (
        0,
        b"[partition]\nmerge [yr]*\nname ?* %2\n",
        &[(b"y", &[5, 6]), (b"s", &[7, 8])],
    ),
    // a union of several has its default name again, and one alone keeps its name
    (
        0,
        b"[partition]\nname y out\nname s state\nmerge [ys]\n",
        &[(b"y", &[5, 7, 8]), (b"r_q", &[6])],
    ),
    (
        0,
        b"[partition]\nname s state\nmerge s\n",
        &[(b"y", &[5]), (b"r_q", &[6]), (b"state", &[7, 8])],
    ),
    (
        0,
        b"[collect]\nsolo s\n[partition]\nname s part\nmerge s\n",
        &[(b"y", &[5]), (b"r_q", &[6]), (b"s", &[7, 8])],
    ),
    (
        0,
        b"[partition]\nmerge [ys]\nname s both\nmerge y\n",
        &[(b"both", &[5, 7, 8]), (b"r_q", &[6])],
    ),
    // sections for the top `t` of gold, and not for the top `u` of gate
    (
        0,
        b"[partition u]\nmerge *\n",
        &[(b"y", &[5]), (b"r_q", &[6]), (b"s", &[7, 8])],
    ),
    (
        0,
        b"[partition t]\nname y out\n[partition u]\nmerge *\n[partition ?]\nmerge [rs]*\n",
        &[(b"out", &[5]), (b"r_q", &[6, 7, 8])],
    ),
    // `path` on the joined wire
    (3, b"", &[(b"y", &[1]), (b"m", &[2]), (b"n", &[3])]),
    (3, b"[partition]\npath m y\n", &[(b"y", &[1, 2, 3])]),
    // against the reads there is no path, and an input stands in no partition
    (
        3,
        b"[partition]\npath y m\n",
        &[(b"y", &[1]), (b"m", &[2]), (b"n", &[3])],
    ),
    (
        3,
        b"[partition]\npath a y\n",
        &[(b"y", &[1]), (b"m", &[2]), (b"n", &[3])],
    ),
    // one partition alone keeps its name, and a union has its default name again
    (
        3,
        b"[partition]\nname n node\npath n n\n",
        &[(b"y", &[1]), (b"m", &[2]), (b"node", &[3])],
    ),
    (
        3,
        b"[partition]\nname y out\nname n node\npath n y\n",
        &[(b"y", &[1, 3]), (b"m", &[2])],
    ),
    // what stands beside the path stays
    (
        4,
        b"[partition]\npath m y\n",
        &[(b"y", &[1, 2, 3]), (b"w", &[4]), (b"z", &[5]), (b"r", &[6])],
    ),
    // through a net without a pair
    (
        4,
        b"[partition]\npath n z\n",
        &[
            (b"y", &[1]),
            (b"m", &[2]),
            (b"n", &[3, 5]),
            (b"w", &[4]),
            (b"r", &[6]),
        ],
    ),
    // through a register
    (
        4,
        b"[partition]\npath m r\n",
        &[(b"y", &[1]), (b"m", &[2, 4, 6]), (b"n", &[3]), (b"z", &[5])],
    ),
    // no path
    (
        4,
        b"[partition]\npath [wr] [yz]\n",
        &[
            (b"y", &[1]),
            (b"m", &[2]),
            (b"n", &[3]),
            (b"w", &[4]),
            (b"z", &[5]),
            (b"r", &[6]),
        ],
    ),
    // several ends
    (
        4,
        b"[partition]\npath n [yz]\n",
        &[(b"y", &[1, 3, 5]), (b"m", &[2]), (b"w", &[4]), (b"r", &[6])],
    ),
    // steps go from partition to partition: `w` leads to that of `r`, which holds `n`
    (
        4,
        b"[partition]\nmerge [nr]\nname r both\npath w y\n",
        &[(b"y", &[1, 3, 4, 6]), (b"m", &[2]), (b"z", &[5])],
    ),
];

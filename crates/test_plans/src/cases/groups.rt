//! Designs, lines of collect sections, and the groups.

/// A design on both sides, the lines behind the frame, and the groups.
pub type Row = (u8, &'static [u8], &'static [&'static [u32]]);

/// Gold's inputs stand at positions 0 to 4, `y` at 5, `r_q` at 6 and `s` at 7 and 8.
pub const ROWS: [Row; 27] = [
    // at first one for each net, and inputs in none
    (0, b"", &[&[5], &[6], &[7, 8]]),
    // gate's inputs at 0 to 4, `y` at 5, `r_reg` at 6, `s` at 7 and 8, `u` at 9 and `n` at 10
    (1, b"", &[&[5], &[6], &[7, 8], &[9], &[10]]),
    // each bit alone
    (0, b"[collect]\nsolo s\n", &[&[5], &[6], &[7], &[8]]),
    (0, b"[collect]\nsolo y\n", &[&[5], &[6], &[7, 8]]),
    (0, b"[collect]\nsolo *\n", &[&[5], &[6], &[7], &[8]]),
    // one group, and the groups that it empties vanish
    (0, b"[collect]\ngroup [ys]\n", &[&[5, 7, 8], &[6]]),
    (0, b"[collect]\ngroup [rs]*\n", &[&[5], &[6, 7, 8]]),
    (0, b"[collect]\ngroup *\n", &[&[5, 6, 7, 8]]),
    (0, b"[collect]\ngroup s\n", &[&[5], &[6], &[7, 8]]),
    // groups are united
    (0, b"[collect]\njoin [rs]*\n", &[&[5], &[6, 7, 8]]),
    (0, b"[collect]\njoin s\n", &[&[5], &[6], &[7, 8]]),
    (
        1,
        b"[collect]\njoin [yn]\n",
        &[&[5, 10], &[6], &[7, 8], &[9]],
    ),
    // what a line leaves behind: `group` takes the bits alone, and `join` their groups whole
    (
        0,
        b"[collect]\ngroup [ys]\ngroup [rs]*\n",
        &[&[5], &[6, 7, 8]],
    ),
    (0, b"[collect]\ngroup [ys]\njoin [rs]*\n", &[&[5, 6, 7, 8]]),
    (
        0,
        b"[collect]\ngroup [ys]\nsolo y\n",
        &[&[5], &[6], &[7, 8]],
    ),
    // lines in their order
    (0, b"[collect]\njoin *\nsolo s\n", &[&[5, 6], &[7], &[8]]),
    (0, b"[collect]\nsolo s\njoin s\n", &[&[5], &[6], &[7, 8]]),
    (0, b"[collect]\nsolo s\njoin [ys]\n", &[&[5, 7, 8], &[6]]),
    // in the order of their first bits
    (0, b"[collect]\njoin *\ngroup r_q\n", &[&[5, 7, 8], &[6]]),
    (0, b"[collect]\njoin *\ngroup y\n", &[&[5], &[6, 7, 8]]),
    (
        1,
        b"[collect]\ngroup [nu]\ngroup [sy]\n",
        &[&[5, 7, 8], &[6], &[9, 10]],
    ),
    // an input that is hit stands in no group, and touches none
    (0, b"[collect]\ngroup [abys]\n", &[&[5, 7, 8], &[6]]),
    (0, b"[collect]\njoin [ab]\n", &[&[5], &[6], &[7, 8]]),
    // nothing is hit
    (
        0,
        b"[collect]\njoin none\ngroup u\n",
        &[&[5], &[6], &[7, 8]],
    ),
    // sections for the top `t` of gold, and not for the top `u` of gate
    (0, b"[collect u]\njoin *\n", &[&[5], &[6], &[7, 8]]),
    (
        0,
        b"[collect t]\nsolo s\n[collect u]\njoin *\n[collect ?]\ngroup [yr]*\n",
        &[&[5, 6], &[7], &[8]],
    ),
    // groups are made of the pairs that are left
    (
        0,
        b"[match]\ngold-nomatch r_q\n[collect]\njoin *\n",
        &[&[5, 6, 7]],
    ),
];

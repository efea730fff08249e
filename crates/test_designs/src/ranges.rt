//! Ranges in both directions, and selects by declared numbers. Values were reckoned by hand.

use crate::running::{Row, first_wrong};
use std::test::Fail;

static ROWS: [Row; 6] = [
    // bits go by position, and numbers by the range: the highest of [0:3] is 0
    (
        "module t(a, b, x, y, p, q, r, s); input [3:0] a; input [0:3] b;
         output [3:0] x; output [0:3] y; output p, q, r, s;
         assign x = b, y = a, p = a[3], q = a[0], r = b[3], s = b[0]; endmodule",
        &[
            (&[8, 8], &[8, 8, 1, 0, 0, 1]),
            (&[1, 1], &[1, 1, 0, 1, 1, 0]),
            (&[8, 1], &[1, 8, 1, 0, 1, 0]),
            (&[5, 10], &[10, 5, 0, 1, 0, 1]),
        ],
    ),
    // parts
    (
        "module t(a, b, x, y, z); input [3:0] a; input [0:3] b; output [1:0] x, y; output [0:2] z;
         assign x = a[2:1], y = b[1:2], z = b[1:3]; endmodule",
        &[
            (&[4, 4], &[2, 2, 4]),
            (&[2, 2], &[1, 1, 2]),
            (&[9, 9], &[0, 0, 1]),
            (&[6, 13], &[3, 2, 5]),
        ],
    ),
    // targets
    (
        "module t(a, s, x, y); input [2:0] a; input s; output [0:3] x; output [3:0] y;
         assign x[0] = s, x[1:3] = a, y[0] = s, y[3:1] = a; endmodule",
        &[
            (&[5, 1], &[13, 11]),
            (&[5, 0], &[5, 10]),
            (&[1, 1], &[9, 3]),
            (&[4, 0], &[4, 8]),
        ],
    ),
    // numbers that begin elsewhere
    (
        "module t(a, x, p, q, r); input [7:4] a; output [12:15] x; output p, q; output [1:0] r;
         assign x = a, p = a[7], q = x[12], r = x[14:15]; endmodule",
        &[
            (&[8], &[8, 1, 1, 0]),
            (&[7], &[7, 0, 0, 3]),
            (&[2], &[2, 0, 0, 2]),
        ],
    ),
    // a range of one bit, and a net without a range
    (
        "module t(a, b, x, y); input [5:5] a; input b; output x; output [0:0] y;
         assign x = a[5] ^ b, y[0] = a[5:5] & b; endmodule",
        &[(&[1, 1], &[0, 1]), (&[1, 0], &[1, 0]), (&[0, 1], &[1, 0])],
    ),
    // a reversal, bit by bit, and by a joined target
    (
        "module t(a, x, y); input [3:0] a; output [3:0] x, y;
         assign x = {a[0], a[1], a[2], a[3]}, {y[0], y[1], y[2], y[3]} = a; endmodule",
        &[
            (&[8], &[1, 1]),
            (&[5], &[10, 10]),
            (&[3], &[12, 12]),
            (&[6], &[6, 6]),
        ],
    ),
];

#[test]
fn ranges_in_both_directions_run_as_reckoned_by_hand(rt: HostRuntime) -> Result<(), Fail> {
    assert_eq!(rt; first_wrong(rt.alloc(), &ROWS)?, None);
    Ok(())
}

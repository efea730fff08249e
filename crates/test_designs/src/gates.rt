//! Gates of all kinds. Values were reckoned by hand.

use crate::running::{Row, first_wrong};
use std::test::Fail;

static ROWS: [Row; 5] = [
    // of three inputs: and 1, nand 2, or 4, nor 8, xor 16, xnor 32
    (
        "module t(a, y); input [2:0] a; output [5:0] y;
         and (y[0], a[0], a[1], a[2]); nand (y[1], a[0], a[1], a[2]); or (y[2], a[0], a[1], a[2]);
         nor (y[3], a[0], a[1], a[2]); xor (y[4], a[0], a[1], a[2]); xnor (y[5], a[0], a[1], a[2]);
         endmodule",
        &[
            (&[0], &[42]),
            (&[1], &[22]),
            (&[2], &[22]),
            (&[3], &[38]),
            (&[4], &[22]),
            (&[5], &[38]),
            (&[6], &[38]),
            (&[7], &[21]),
        ],
    ),
    // of one input: and, or, xor pass it on, the others negate it
    (
        "module t(a, y); input a; output [5:0] y;
         and (y[0], a); nand (y[1], a); or (y[2], a); nor (y[3], a); xor (y[4], a); xnor (y[5], a);
         endmodule",
        &[(&[0], &[42]), (&[1], &[21])],
    ),
    // of eight inputs, one of which stands twice
    (
        "module t(a, y); input [7:0] a; output [5:0] y;
         and g(y[0], a[0], a[1], a[2], a[3], a[4], a[5], a[6], a[7]);
         nand h(y[1], a[0], a[1], a[2], a[3], a[4], a[5], a[6], a[7]);
         or (y[2], a[0], a[1], a[2], a[3], a[4], a[5], a[6], a[7]);
         nor (y[3], a[0], a[1], a[2], a[3], a[4], a[5], a[6], a[7]);
         xor (y[4], a[0], a[1], a[2], a[3], a[4], a[5], a[6], a[7]),
             (y[5], a[0], a[0], a[1], a[2], a[3], a[4], a[5], a[6]);
         endmodule",
        &[
            (&[0], &[10]),
            (&[255], &[5]),
            (&[1], &[22]),
            (&[128], &[22]),
            (&[254], &[22]),
            (&[3], &[38]),
            (&[64], &[54]),
        ],
    ),
    // several outputs
    (
        "module t(a, x, y, z, u, v, w); input a; output x, y, z, u, v; output [1:0] w;
         buf (x, y, z, a); not (u, v, {w[0]}, a), (w[1], u); endmodule",
        &[(&[0], &[0, 0, 0, 1, 1, 1]), (&[1], &[1, 1, 1, 0, 0, 2])],
    ),
    // expressions as inputs, a gate's name, and two gates behind one another
    (
        "module t(a, x, y); input [2:0] a; output x, y; wire w;
         xor (x, a[0] & a[1], ~a[2], 1'b1, a == 3'd5); nor g1(w, a[0], |a[2:1]), g2(y, w, a[2]);
         endmodule",
        &[
            (&[0], &[0, 0]),
            (&[1], &[0, 1]),
            (&[3], &[1, 1]),
            (&[4], &[1, 0]),
            (&[5], &[0, 0]),
        ],
    ),
];

#[test]
fn gates_run_as_reckoned_by_hand(rt: HostRuntime) -> Result<(), Fail> {
    assert_eq!(rt; first_wrong(rt.alloc(), &ROWS)?, None);
    Ok(())
}

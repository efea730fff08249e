//! Carries over one vector, each of which reads the one below it. Values were reckoned by hand.

use crate::running::{Row, first_wrong};
use std::test::Fail;

static ROWS: [Row; 4] = [
    // one equation for all carries
    (
        "module t(a, b, ci, s, co); input [7:0] a, b; input ci; output [7:0] s; output co;
         wire [8:0] c; assign c[0] = ci, c[8:1] = a & b | c[7:0] & (a ^ b), s = a ^ b ^ c[7:0];
         assign co = c[8]; endmodule",
        &[
            (&[200, 100, 0], &[44, 1]),
            (&[255, 1, 0], &[0, 1]),
            (&[255, 0, 1], &[0, 1]),
            (&[85, 170, 0], &[255, 0]),
            (&[85, 170, 1], &[0, 1]),
            (&[17, 25, 1], &[43, 0]),
            (&[255, 255, 1], &[255, 1]),
        ],
    ),
    // one equation for each, and the range in the other direction
    (
        "module t(a, b, s); input [3:0] a, b; output [4:0] s; wire [4:0] c;
         assign c[0] = 1'b0, c[1] = a[0] & b[0] | c[0] & (a[0] ^ b[0]);
         assign c[2] = a[1] & b[1] | c[1] & (a[1] ^ b[1]), c[3] = a[2] & b[2] | c[2] & (a[2] ^ b[2]);
         assign c[4] = a[3] & b[3] | c[3] & (a[3] ^ b[3]), s = {c[4], a ^ b ^ c[3:0]}; endmodule",
        &[
            (&[9, 9], &[18]),
            (&[15, 1], &[16]),
            (&[7, 1], &[8]),
            (&[15, 15], &[30]),
            (&[10, 5], &[15]),
        ],
    ),
    (
        "module t(a, b, s); input [0:3] a, b; output [0:4] s; wire [0:4] c;
         assign c = {a & b | c[1:4] & (a ^ b), 1'b0}, s = {c[0], a ^ b ^ c[1:4]}; endmodule",
        &[
            (&[9, 9], &[18]),
            (&[15, 1], &[16]),
            (&[7, 1], &[8]),
            (&[15, 15], &[30]),
            (&[10, 5], &[15]),
        ],
    ),
    // an instance for each
    (
        "module t(a, b, s); input [2:0] a, b; output [3:0] s; wire [3:1] c;
         full f0(a[0], b[0], 1'b0, s[0], c[1]), f1(a[1], b[1], c[1], s[1], c[2]),
              f2(.a(a[2]), .b(b[2]), .ci(c[2]), .co(c[3]), .s(s[2])); assign s[3] = c[3]; endmodule
         module full(a, b, ci, s, co); input a, b, ci; output s, co;
         assign {co, s} = a + b + ci; endmodule",
        &[
            (&[5, 3], &[8]),
            (&[7, 7], &[14]),
            (&[1, 2], &[3]),
            (&[6, 3], &[9]),
            (&[7, 1], &[8]),
        ],
    ),
];

#[test]
fn carries_over_one_vector_add_as_reckoned_by_hand(rt: HostRuntime) -> Result<(), Fail> {
    assert_eq!(rt; first_wrong(rt.alloc(), &ROWS)?, None);
    Ok(())
}

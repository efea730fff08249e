//! Instances: connections by order and by name, missing ones, and ones that are wider or narrower than the port. Values were
//! reckoned by hand.

use crate::running::{Row, first_wrong};
use std::test::Fail;

static ROWS: [Row; 10] = [
    // by order, and by name in another order
    (
        "module t(a, b, x, y); input [3:0] a, b; output [3:0] x, y;
         m u(a, b, x), v(.o(y), .j(a), .i(b)); endmodule
         module m(i, j, o); input [3:0] i, j; output [3:0] o; assign o = i - j; endmodule",
        &[(&[9, 4], &[5, 11]), (&[4, 9], &[11, 5]), (&[7, 7], &[0, 0])],
    ),
    // an input that nothing reads is connected to nothing, by order, by name and unnamed
    (
        "module t(a, x, y, z); input a; output x, y, z;
         m u(a, , x), v(.i(a), .o(y), .j()), w(.i(a), .o(z)); endmodule
         module m(i, j, o); input i, j; output o; assign o = ~i; endmodule",
        &[(&[0], &[1, 1, 1]), (&[1], &[0, 0, 0])],
    ),
    // an output that is connected to nothing
    (
        "module t(a, x, y); input a; output x, y; m u(a, x, ), v(.i(a), .p(y)); endmodule
         module m(i, o, p); input i; output o, p; assign o = i, p = ~i; endmodule",
        &[(&[0], &[0, 1]), (&[1], &[1, 0])],
    ),
    // an input's expression that is wider than the port: its low bits
    (
        "module t(a, y, z); input [7:0] a; output [3:0] y, z; m u(a, y), v(a >> 3'd4, z); endmodule
         module m(i, o); input [3:0] i; output [3:0] o; assign o = i; endmodule",
        &[(&[165], &[5, 10]), (&[16], &[0, 1]), (&[255], &[15, 15])],
    ),
    // and narrower: computed in the port's size, so a carry is kept, and a complement has ones above
    (
        "module t(a, b, x, y, z); input [3:0] a, b; output [7:0] x, y, z;
         m u(a + b, x), v(~a, y), w(.o(z), .i({~a})); endmodule
         module m(i, o); input [7:0] i; output [7:0] o; assign o = i; endmodule",
        &[
            (&[9, 9], &[18, 246, 6]),
            (&[15, 1], &[16, 240, 0]),
            (&[0, 0], &[0, 255, 15]),
        ],
    ),
    // an output's target that is wider than the port has zeros above, and a narrower one the low bits
    (
        "module t(a, x, y); input [3:0] a; output [7:0] x; output [1:0] y; m u(a, x), v(a, y);
         endmodule module m(i, o); input [3:0] i; output [3:0] o; assign o = ~i; endmodule",
        &[
            (&[0], &[15, 3]),
            (&[5], &[10, 2]),
            (&[14], &[1, 1]),
            (&[15], &[0, 0]),
        ],
    ),
    // a joined target, a part of a net, and a bit
    (
        "module t(a, x, y); input [3:0] a; output [3:0] x, y;
         m u(a, {x[0], x[3:1]}), v(.i(a), .o(y[2:1])), w(a >> 2'd2, y[3]); assign y[0] = 1'b0;
         endmodule module m(i, o); input [3:0] i; output [3:0] o; assign o = i; endmodule",
        &[
            (&[8], &[1, 0]),
            (&[3], &[6, 6]),
            (&[6], &[12, 12]),
            (&[13], &[11, 10]),
        ],
    ),
    // ports of the other direction go by position
    (
        "module t(a, x); input [3:0] a; output [3:0] x; m u(a, x); endmodule
         module m(i, o); input [0:3] i; output [7:4] o; assign o = {i[0], 2'b00, i[3]}; endmodule",
        &[(&[8], &[8]), (&[1], &[1]), (&[6], &[0]), (&[15], &[9])],
    ),
    // two levels, and one module twice
    (
        "module t(a, b, c, s, k); input a, b, c; output s, k; wire p, g, h;
         half one(a, b, p, g), two(.x(p), .y(c), .s(s), .k(h)); either e(g, h, k); endmodule
         module half(x, y, s, k); input x, y; output s, k; xor (s, x, y); and (k, x, y); endmodule
         module either(x, y, z); input x, y; output z; wire w; nor (w, x, y); flip f(w, z); endmodule
         module flip(input x, output y); assign y = !x; endmodule",
        &[
            (&[0, 0, 0], &[0, 0]),
            (&[1, 0, 0], &[1, 0]),
            (&[0, 1, 1], &[0, 1]),
            (&[1, 1, 0], &[0, 1]),
            (&[1, 1, 1], &[1, 1]),
        ],
    ),
    // a port that is read and driven inside, and a constant
    (
        "module t(x, y); output [3:0] x, y; m u(4'd6, x), v(8'd200, y); endmodule
         module m(i, o); input [3:0] i; output [3:0] o; wire w; assign o[3:1] = i[3:1], o[0] = w;
         assign w = o[1] ^ o[2]; endmodule",
        &[(&[], &[6, 8])],
    ),
];

#[test]
fn connections_run_as_reckoned_by_hand(rt: HostRuntime) -> Result<(), Fail> {
    assert_eq!(rt; first_wrong(rt.alloc(), &ROWS)?, None);
    Ok(())
}

//! Clocks that reach their always items through plain copies and instances. Values were reckoned by hand.

use crate::running::{Row, first_wrong};
use std::test::Fail;

static ROWS: [Row; 6] = [
    // an assignment, a buffer behind it, and a part of a joined net
    (
        "module t(clk, a, y); input clk, a; output [3:0] y; reg p = 1'b0, q = 1'b1, r = 1'b0, s = 1'b1;
         wire v, w; wire [1:0] k; assign v = clk, k = {clk, a}, y = {s, r, q, p}; buf (w, v);
         always @(posedge clk) p <= ~p; always @(posedge v) q <= ~q; always @(posedge w) r <= a;
         always @(posedge k[1]) s <= k[0]; endmodule",
        &[
            (&[1], &[10]),
            (&[0], &[13]),
            (&[0], &[2]),
            (&[1], &[1]),
            (&[1], &[14]),
        ],
    ),
    // position 0 of a net of two bits, in both directions, and a copy that has a zero above
    (
        "module t(clk, a, y); input clk, a; output [2:0] y; reg [2:0] q = 3'd0; assign y = q;
         wire [1:0] j, l; wire [0:1] k; assign j = {a, clk}, k = {a, clk}, l = clk;
         always @(posedge j) q[0] <= a; always @(posedge k) q[1] <= q[0];
         always @(posedge l[0]) q[2] <= q[1]; endmodule",
        &[
            (&[1], &[0]),
            (&[0], &[1]),
            (&[1], &[2]),
            (&[1], &[5]),
            (&[0], &[3]),
        ],
    ),
    // into an instance of an instance, by order and by name
    (
        "module t(clk, a, y); input clk, a; output [1:0] y; m u(clk, a, y[0]), v(.o(y[1]), .i(y[0]), .c(clk));
         endmodule
         module m(c, i, o); input c, i; output o; n w(.ck(c), .d(i), .q(o)); endmodule
         module n(input ck, input d, output reg q = 1'b0); always @(posedge ck) q <= d; endmodule",
        &[
            (&[1], &[0]),
            (&[1], &[1]),
            (&[0], &[3]),
            (&[0], &[2]),
            (&[1], &[0]),
        ],
    ),
    // out of an instance that buffers it, to a target that has a zero above
    (
        "module t(ck, y, z); input ck; output [1:0] y; output z; wire v, w; reg [1:0] q = 2'd0;
         pass u(.i(ck), .o({w, v})); assign y = q, z = w; always @(posedge v) q <= q + 2'd1; endmodule
         module pass(i, o); input i; output o; wire w; buf (w, i); assign o = w; endmodule",
        &[
            (&[], &[0, 0]),
            (&[], &[1, 0]),
            (&[], &[2, 0]),
            (&[], &[3, 0]),
            (&[], &[0, 0]),
        ],
    ),
    // copies that nothing reads, at the event of an item that sets nothing
    (
        "module t(clk, a, y); input clk, a; output y; wire u, v, w; assign u = clk, v = u; buf (w, v);
         always @(posedge w) ; assign y = ~a; endmodule",
        &[(&[0], &[1]), (&[1], &[0])],
    ),
    // a repeat and a concatenation in a concatenation
    (
        "module t(clk, y); input clk; output y; wire [4:0] w; reg q = 1'b0; assign y = q;
         assign w = {1'b0, {2{{clk, 1'b1}}}}; always @(posedge w[3]) q <= w[2];
         always @(posedge w[1]) ; endmodule",
        &[(&[], &[0]), (&[], &[1]), (&[], &[1])],
    ),
];

#[test]
fn clocks_behind_copies_run_as_reckoned_by_hand(rt: HostRuntime) -> Result<(), Fail> {
    assert_eq!(rt; first_wrong(rt.alloc(), &ROWS)?, None);
    Ok(())
}

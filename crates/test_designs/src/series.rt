//! Counters and shift registers over 20 cycles. Values were reckoned by hand.

use crate::running::{Row, first_wrong};
use std::test::Fail;

static ROWS: [Row; 7] = [
    // a counter of three bits, and its Gray code
    (
        "module t(c, y, g); input c; output [2:0] y, g; reg [2:0] q = 3'd0; assign y = q, g = q ^ q >> 1'b1;
         always @(posedge c) q <= q + 3'd1; endmodule",
        &[
            (&[], &[0, 0]),
            (&[], &[1, 1]),
            (&[], &[2, 3]),
            (&[], &[3, 2]),
            (&[], &[4, 6]),
            (&[], &[5, 7]),
            (&[], &[6, 5]),
            (&[], &[7, 4]),
            (&[], &[0, 0]),
            (&[], &[1, 1]),
            (&[], &[2, 3]),
            (&[], &[3, 2]),
            (&[], &[4, 6]),
            (&[], &[5, 7]),
            (&[], &[6, 5]),
            (&[], &[7, 4]),
            (&[], &[0, 0]),
            (&[], &[1, 1]),
            (&[], &[2, 3]),
            (&[], &[3, 2]),
        ],
    ),
    // the same as a chain of instances that each toggle
    (
        "module t(c, y); input c; output [2:0] y; wire [3:1] k; cell u(c, 1'b1, y[0], k[1]),
         v(c, k[1], y[1], k[2]), w(c, k[2], y[2], k[3]); endmodule
         module cell(c, e, q, k); input c, e; output q, k; reg q = 1'b0; assign k = e & q;
         always @(posedge c) if (e) q <= ~q; endmodule",
        &[
            (&[], &[0]),
            (&[], &[1]),
            (&[], &[2]),
            (&[], &[3]),
            (&[], &[4]),
            (&[], &[5]),
            (&[], &[6]),
            (&[], &[7]),
            (&[], &[0]),
            (&[], &[1]),
            (&[], &[2]),
            (&[], &[3]),
            (&[], &[4]),
            (&[], &[5]),
            (&[], &[6]),
            (&[], &[7]),
            (&[], &[0]),
            (&[], &[1]),
            (&[], &[2]),
            (&[], &[3]),
        ],
    ),
    // a counter that goes up and down
    (
        "module t(c, up, y); input c, up; output [3:0] y; reg [3:0] q = 4'd14; assign y = q;
         always @(posedge c) if (up) q <= q + 4'd1; else q <= q - 4'd1; endmodule",
        &[
            (&[1], &[14]),
            (&[1], &[15]),
            (&[1], &[0]),
            (&[0], &[1]),
            (&[0], &[0]),
            (&[0], &[15]),
            (&[0], &[14]),
            (&[1], &[13]),
            (&[1], &[14]),
            (&[0], &[15]),
            (&[1], &[14]),
            (&[1], &[15]),
            (&[1], &[0]),
            (&[1], &[1]),
            (&[0], &[2]),
            (&[0], &[1]),
            (&[1], &[0]),
            (&[0], &[1]),
            (&[0], &[0]),
            (&[0], &[15]),
        ],
    ),
    // a ring that is turned over
    (
        "module t(c, y); input c; output [3:0] y; reg [3:0] q = 4'd0; assign y = q;
         always @(posedge c) q <= {q[2:0], ~q[3]}; endmodule",
        &[
            (&[], &[0]),
            (&[], &[1]),
            (&[], &[3]),
            (&[], &[7]),
            (&[], &[15]),
            (&[], &[14]),
            (&[], &[12]),
            (&[], &[8]),
            (&[], &[0]),
            (&[], &[1]),
            (&[], &[3]),
            (&[], &[7]),
            (&[], &[15]),
            (&[], &[14]),
            (&[], &[12]),
            (&[], &[8]),
            (&[], &[0]),
            (&[], &[1]),
            (&[], &[3]),
            (&[], &[7]),
        ],
    ),
    // a shift register of an input, by parts and by bits
    (
        "module t(c, d, x, y); input c, d; output [3:0] x, y; reg [3:0] p = 4'd0; reg [0:3] q = 4'd0;
         assign x = p, y = q; always @(posedge c) p <= {p, d};
         always @(posedge c) begin q[3] <= d; q[2] <= q[3]; q[1] <= q[2]; q[0] <= q[1]; end endmodule",
        &[
            (&[1], &[0, 0]),
            (&[0], &[1, 1]),
            (&[1], &[2, 2]),
            (&[1], &[5, 5]),
            (&[0], &[11, 11]),
            (&[0], &[6, 6]),
            (&[1], &[12, 12]),
            (&[0], &[9, 9]),
            (&[1], &[2, 2]),
            (&[1], &[5, 5]),
            (&[1], &[11, 11]),
            (&[0], &[7, 7]),
            (&[0], &[14, 14]),
            (&[0], &[12, 12]),
            (&[1], &[8, 8]),
            (&[1], &[1, 1]),
            (&[0], &[3, 3]),
            (&[1], &[6, 6]),
            (&[0], &[13, 13]),
            (&[1], &[10, 10]),
        ],
    ),
    // a shift register of its own bits, in all 15 states but 0
    (
        "module t(c, y); input c; output [3:0] y; reg [3:0] q = 4'd1; assign y = q;
         always @(posedge c) q <= {q[2:0], q[3] ^ q[2]}; endmodule",
        &[
            (&[], &[1]),
            (&[], &[2]),
            (&[], &[4]),
            (&[], &[9]),
            (&[], &[3]),
            (&[], &[6]),
            (&[], &[13]),
            (&[], &[10]),
            (&[], &[5]),
            (&[], &[11]),
            (&[], &[7]),
            (&[], &[15]),
            (&[], &[14]),
            (&[], &[12]),
            (&[], &[8]),
            (&[], &[1]),
            (&[], &[2]),
            (&[], &[4]),
            (&[], &[9]),
            (&[], &[3]),
        ],
    ),
    // the numbers of Fibonacci, modulo 256
    (
        "module t(c, y); input c; output [7:0] y; reg [7:0] p = 8'd0, q = 8'd1; assign y = p;
         always @(posedge c) begin p <= q; q <= p + q; end endmodule",
        &[
            (&[], &[0]),
            (&[], &[1]),
            (&[], &[1]),
            (&[], &[2]),
            (&[], &[3]),
            (&[], &[5]),
            (&[], &[8]),
            (&[], &[13]),
            (&[], &[21]),
            (&[], &[34]),
            (&[], &[55]),
            (&[], &[89]),
            (&[], &[144]),
            (&[], &[233]),
            (&[], &[121]),
            (&[], &[98]),
            (&[], &[219]),
            (&[], &[61]),
            (&[], &[24]),
            (&[], &[85]),
        ],
    ),
];

#[test]
fn counters_and_shift_registers_run_as_reckoned_by_hand(rt: HostRuntime) -> Result<(), Fail> {
    assert_eq!(rt; first_wrong(rt.alloc(), &ROWS)?, None);
    Ok(())
}

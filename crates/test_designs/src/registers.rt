//! Registers: initial values, what statements leave, and a counter as a synthesis tool writes it. Values were reckoned by hand.

use crate::running::{Row, first_wrong};
use std::test::Fail;

static VALUES: [Row; 4] = [
    // a register that no always item sets, also one of which some bits are set
    (
        "module t(c, a, x, y); input c; input [1:0] a; output [3:0] x, y; reg [3:0] p = 4'd9, q;
         initial q = 4'b0110; assign x = p, y = q; always @(posedge c) q[1:0] <= a; endmodule",
        &[
            (&[3], &[9, 6]),
            (&[0], &[9, 7]),
            (&[1], &[9, 4]),
            (&[1], &[9, 5]),
        ],
    ),
    // no clock at all
    (
        "module t(a, y); input a; output [1:0] y; reg [1:0] q = 2'd2; assign y = q ^ a; endmodule",
        &[(&[0], &[2]), (&[1], &[3]), (&[0], &[2])],
    ),
    // initial values that are wider and narrower, of parts, of joined registers, and of other directions
    (
        "module t(w, x, y, z); output [3:0] w, x, y, z; reg [3:0] p = 8'hA5, q = 2'b10, r; reg [0:3] s;
         initial begin r[3:2] = 2'b01; {r[0], r[1], s[0:1]} = 4'b1011; s[2:3] = 2'b01; end
         assign w = p, x = q, y = r, z = s; endmodule",
        &[(&[], &[5, 2, 5, 13]), (&[], &[5, 2, 5, 13])],
    ),
    // what is set is cut, or has zeros above
    (
        "module t(c, a, y, z); input c; input [3:0] a; output [5:0] y; output [1:0] z;
         reg [5:0] p = 6'd63; reg [1:0] q = 2'd0; assign y = p, z = q;
         always @(posedge c) begin p <= a + a; q <= a; end endmodule",
        &[
            (&[15], &[63, 0]),
            (&[6], &[30, 3]),
            (&[9], &[12, 2]),
            (&[0], &[18, 1]),
            (&[0], &[0, 0]),
        ],
    ),
];

static STATEMENTS: [Row; 8] = [
    // a later assignment wins, of each bit
    (
        "module t(c, a, b, y); input c, b; input [3:0] a; output [3:0] y; reg [3:0] q = 4'd0;
         assign y = q;
         always @(posedge c) begin q <= a; if (b) q <= ~a; q[0] <= 1'b0; end endmodule",
        &[
            (&[5, 0], &[0]),
            (&[5, 1], &[4]),
            (&[15, 0], &[10]),
            (&[15, 1], &[14]),
            (&[0, 0], &[0]),
        ],
    ),
    // a chain, one branch of which is empty, so the bits stay
    (
        "module t(c, a, y); input c; input [1:0] a; output [3:0] y; reg [3:0] q = 4'd5; assign y = q;
         always @(posedge c) if (a == 2'd0) q <= 4'd1; else if (a == 2'd1) q <= q + 4'd1;
           else if (a == 2'd2) ; else q <= 4'd15; endmodule",
        &[
            (&[2], &[5]),
            (&[1], &[5]),
            (&[1], &[6]),
            (&[3], &[7]),
            (&[1], &[15]),
            (&[0], &[0]),
            (&[2], &[1]),
            (&[2], &[1]),
        ],
    ),
    // without else the bits stay, in some of the branches
    (
        "module t(c, e, a, y, z); input c, e; input [1:0] a; output [1:0] y, z;
         reg [1:0] p = 2'd0, q = 2'd3; assign y = p, z = q;
         always @(posedge c) if (e) begin p <= a; if (a[0]) q[1] <= p[0]; end else q[0] <= ~q[0];
         endmodule",
        &[
            (&[0, 2], &[0, 3]),
            (&[1, 1], &[0, 2]),
            (&[1, 3], &[1, 0]),
            (&[0, 0], &[3, 2]),
            (&[1, 2], &[3, 3]),
            (&[0, 1], &[2, 3]),
        ],
    ),
    // an else belongs to the nearest if
    (
        "module t(c, a, b, y); input c, a, b; output [1:0] y; reg [1:0] q = 2'd0; assign y = q;
         always @(posedge c) if (a) if (b) q <= 2'd1; else q <= 2'd2; endmodule",
        &[
            (&[0, 0], &[0]),
            (&[1, 0], &[0]),
            (&[0, 1], &[2]),
            (&[1, 1], &[2]),
            (&[0, 0], &[1]),
            (&[0, 0], &[1]),
        ],
    ),
    // what is read is from before the edge
    (
        "module t(c, x, y, z); input c; output x, y; output [3:0] z; reg p = 1'b1, q = 1'b0;
         reg [3:0] r = 4'b0001; assign x = p, y = q, z = r;
         always @(posedge c) begin p <= q; q <= p; {r[0], r[3:1]} <= r; end endmodule",
        &[
            (&[], &[1, 0, 1]),
            (&[], &[0, 1, 2]),
            (&[], &[1, 0, 4]),
            (&[], &[0, 1, 8]),
            (&[], &[1, 0, 1]),
        ],
    ),
    // a condition of several bits, one that is computed, and blocks in one another
    (
        "module t(c, a, y, z); input c; input [1:0] a; output [1:0] y; output z; reg [1:0] q = 2'd0;
         reg r = 1'b0; assign y = q, z = r;
         always @(posedge c) begin if (a) begin begin q <= q + a; end ; end if (a + a) r <= ~r; end
         endmodule",
        &[
            (&[2], &[0, 0]),
            (&[0], &[2, 0]),
            (&[1], &[2, 0]),
            (&[3], &[3, 1]),
            (&[0], &[2, 0]),
        ],
    ),
    // two always items that set bits of one net, and read one another's
    (
        "module t(c, a, y); input c, a; output [3:0] y; reg [3:0] q = 4'd0; assign y = q;
         always @(posedge c) q[1:0] <= {q[0], a}; always @(posedge c) q[3:2] <= {q[2], q[1]};
         endmodule",
        &[
            (&[1], &[0]),
            (&[0], &[1]),
            (&[0], &[2]),
            (&[1], &[4]),
            (&[1], &[9]),
            (&[0], &[3]),
        ],
    ),
    // a register with reset and enable behind a net of its next value
    (
        "module t(input clk, input rst, input en, output reg [2:0] q = 3'd6); wire [2:0] d;
         assign d = rst ? 3'd0 : en ? q + 3'd1 : q; always @(posedge clk) q <= d; endmodule",
        &[
            (&[0, 1], &[6]),
            (&[0, 1], &[7]),
            (&[0, 0], &[0]),
            (&[0, 1], &[0]),
            (&[1, 1], &[1]),
            (&[0, 0], &[0]),
        ],
    ),
];

static SYNTHESIZED: [Row; 2] = [
    (
        "/* Generated by a synthesis tool */
         (* top =  1  *) (* src = \"counter.v:1.1-12.10\" *)
         module t(clk, en, q);
           (* src = \"counter.v:6.3-8.6\" *)
           wire [1:0] _00_;
           (* src = \"counter.v:2.9-2.12\" *)
           input clk;
           wire clk;
           input en;
           wire en;
           wire \\en.q ;
           output [1:0] q;
           reg [1:0] q = 2'h0;
           assign _00_ = q + (* src = \"counter.v:7.17-7.22\" *) 2'h1;
           assign \\en.q = en;
           (* src = \"counter.v:6.3-8.6\" *)
           always @(posedge clk)
             if (\\en.q ) q <= _00_;
         endmodule",
        &[
            (&[1], &[0]),
            (&[1], &[1]),
            (&[0], &[2]),
            (&[1], &[2]),
            (&[1], &[3]),
            (&[0], &[0]),
            (&[1], &[0]),
            (&[1], &[1]),
        ],
    ),
    // the same as gates, with a register for each bit
    (
        "module t(clk, en, q);
           wire _0_; wire _1_; wire _2_;
           input clk; wire clk; input en; wire en; output [1:0] q; wire [1:0] q;
           reg \\q_reg[0] ; reg \\q_reg[1] ;
           xor _3_ (_0_, q[0], en);
           and _4_ (_1_, q[0], en);
           xor _5_ (_2_, q[1], _1_);
           initial \\q_reg[0] = 1'h0;
           always @(posedge clk) \\q_reg[0] <= _0_;
           initial \\q_reg[1] = 1'h0;
           always @(posedge clk) \\q_reg[1] <= _2_;
           assign q = { \\q_reg[1] , \\q_reg[0] };
         endmodule",
        &[
            (&[1], &[0]),
            (&[1], &[1]),
            (&[0], &[2]),
            (&[1], &[2]),
            (&[1], &[3]),
            (&[0], &[0]),
            (&[1], &[0]),
            (&[1], &[1]),
        ],
    ),
];

#[test]
fn initial_values_and_sizes_run_as_reckoned_by_hand(rt: HostRuntime) -> Result<(), Fail> {
    assert_eq!(rt; first_wrong(rt.alloc(), &VALUES)?, None);
    Ok(())
}

#[test]
fn statements_run_as_reckoned_by_hand(rt: HostRuntime) -> Result<(), Fail> {
    assert_eq!(rt; first_wrong(rt.alloc(), &STATEMENTS)?, None);
    Ok(())
}

#[test]
fn synthesized_counters_run_as_reckoned_by_hand(rt: HostRuntime) -> Result<(), Fail> {
    assert_eq!(rt; first_wrong(rt.alloc(), &SYNTHESIZED)?, None);
    Ok(())
}

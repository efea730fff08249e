//! Worked examples, from the texts of two designs to the lines of the rows.

use crate::deciding::{Row, first_wrong};
use std::test::Fail;

static WIRES: [Row; 7] = [
    // an inner net is a pair of its own
    (
        "module t(a, b, c, y); input a, b, c; output y; wire n; assign n = a & b; assign y = n | c;
         endmodule",
        "module t(a, b, c, y); input a, b, c; output y; wire n; assign n = ~(~a | ~b);
         assign y = c | n; endmodule",
        "",
        "y: PROVED 1 by s\nn: PROVED 1 by s\n",
    ),
    // gold's p reads q, and gate's q reads p
    (
        "module t(x, p, q); input x; output p, q; assign p = x & (x | q); assign q = x; endmodule",
        "module t(x, p, q); input x; output p, q; assign p = x; assign q = x | (x & p); endmodule",
        "",
        "p: PROVED 1 by s\nq: PROVED 1 by s\n",
    ),
    // the designs are equal, but the value of a cut net is free
    (
        "module t(a, y); input a; output y; wire n; assign n = a; assign y = n & a; endmodule",
        "module t(a, y); input a; output y; wire n; assign n = a; assign y = n; endmodule",
        "",
        "y: FAIL 1 by s\nn: PROVED 1 by s\n",
    ),
    // unless both are in one partition
    (
        "module t(a, y); input a; output y; wire n; assign n = a; assign y = n & a; endmodule",
        "module t(a, y); input a; output y; wire n; assign n = a; assign y = n; endmodule",
        "[partition t]\nmerge [ny]\n",
        "y: PROVED 1 by s\n",
    ),
    // or on a way from one to the other
    (
        "module t(a, y); input a; output y; wire m, n; assign m = a; assign n = m; assign y = n;
         endmodule",
        "module t(a, y); input a; output y; wire m, n; assign m = a; assign n = m; assign y = n;
         endmodule",
        "[partition t]\npath m y\n",
        "y: PROVED 1 by s\n",
    ),
    // no output, no row
    (
        "module t(a); input a; endmodule",
        "module t(a); input a; endmodule",
        "",
        "",
    ),
    // no strategy is for the partition
    (
        "module t(a, b, y); input a, b; output y; assign y = a & b; endmodule",
        "module t(a, b, y); input a, b; output y; assign y = ~(~a | ~b); endmodule",
        "apply z*\n",
        "y: UNKNOWN no strategy applies\n",
    ),
];

static VECTORS: [Row; 6] = [
    // bits are paired by position
    (
        "module t(a, y); input [3:0] a; output [0:3] y; assign y = a; endmodule",
        "module t(a, y); input [3:0] a; output [0:3] y; assign y[0] = a[3]; assign y[1] = a[2];
         assign y[2] = a[1]; assign y[3] = a[0]; endmodule",
        "",
        "y: PROVED 1 by s\n",
    ),
    (
        "module t(a, y); input [3:0] a; output [0:3] y; assign y = a; endmodule",
        "module t(a, y); input [3:0] a; output [3:0] y; assign y = a; endmodule",
        "",
        "y: PROVED 1 by s\n",
    ),
    (
        "module t(a, y); input [3:0] a; output [0:3] y; assign y = a; endmodule",
        "module t(a, y); input [3:0] a; output [0:3] y; assign y[0] = a[0]; assign y[1] = a[1];
         assign y[2] = a[2]; assign y[3] = a[3]; endmodule",
        "",
        "y: FAIL 1 by s\n",
    ),
    // a carry ripples over one vector
    (
        "module t(a, b, y); input [3:0] a, b; output [3:0] y; assign y = a + b; endmodule",
        "module t(a, b, y); input [3:0] a, b; output [3:0] y; wire [4:0] c; assign c[0] = 1'b0;
         assign c[1] = a[0] & b[0] | c[0] & (a[0] ^ b[0]);
         assign c[2] = a[1] & b[1] | c[1] & (a[1] ^ b[1]);
         assign c[3] = a[2] & b[2] | c[2] & (a[2] ^ b[2]);
         assign c[4] = a[3] & b[3] | c[3] & (a[3] ^ b[3]);
         assign y = a ^ b ^ c[3:0]; endmodule",
        "",
        "y: PROVED 1 by s\n",
    ),
    // the size of the context
    (
        "module t(a, b, y); input [3:0] a, b; output [4:0] y; assign y = {1'b0, a} + b; endmodule",
        "module t(a, b, y); input [3:0] a, b; output [4:0] y; assign y = a + b; endmodule",
        "",
        "y: PROVED 1 by s\n",
    ),
    (
        "module t(a, b, y); input [3:0] a, b; output [4:0] y; assign y = {1'b0, a} + b; endmodule",
        "module t(a, b, y); input [3:0] a, b; output [4:0] y; assign y = {a + b}; endmodule",
        "",
        "y: FAIL 1 by s\n",
    ),
];

const HELD: &str = "module t(clk, x, y); input clk, x; output y; reg r; initial r = 1'b0;
     always @(posedge clk) r <= r; assign y = r & x; endmodule";

const COUNTER: &str = "module t(clk, y); input clk; output y; reg [1:0] c; initial c = 2'h0;
     always @(posedge clk) c <= c + 2'h1; assign y = c == 2'h2; endmodule";

const ZERO: &str = "module t(clk, y); input clk; output y; assign y = 1'b0; endmodule";

const COUNTED: &str = "module t(clk, q); input clk; output [1:0] q; reg [1:0] cnt_q;
     initial cnt_q = 2'h0; always @(posedge clk) cnt_q <= cnt_q + 2'h1; assign q = cnt_q; endmodule";

const RENAMED: &str = "module t(clk, q); input clk; output [1:0] q; reg [1:0] cnt_reg;
     initial cnt_reg = 2'h0; always @(posedge clk) cnt_reg <= cnt_reg + 2'h1;
     assign q = cnt_reg; endmodule";

static CYCLES: [Row; 5] = [
    // a register that is never set: from a state that is never reached the outputs may differ
    (
        HELD,
        "module t(clk, x, y); input clk, x; output y; assign y = 1'b0; endmodule",
        "depth 5\n",
        "y: UNKNOWN s depth 5\n",
    ),
    // a counter is 2 in the third cycle
    (COUNTER, ZERO, "depth 3\n", "y: FAIL 3 by s\n"),
    (COUNTER, ZERO, "depth 2\n", "y: UNKNOWN s depth 2\n"),
    // registers of two names are a pair by a pattern, and each bit is a partition
    (
        COUNTED,
        RENAMED,
        "[match]\ngold-match *_q %1_reg\n[collect]\nsolo cnt_*\n",
        "q: PROVED 1 by s\ncnt_q[0]: PROVED 1 by s\ncnt_q[1]: PROVED 1 by s\n",
    ),
    // as a synthesis tool writes it
    (
        "/* Generated by Yosys */
         (* top =  1  *)
         (* src = \"cnt.v:1.1-9.10\" *)
         module t(clk, en, q);
           wire [3:0] _00_; input clk; wire clk; input en; wire en; output [3:0] q;
           reg [3:0] q = 4'h0; wire \\en.q ; assign _00_ = q + 4'h1; assign \\en.q = en;
           always @(posedge clk) if (\\en.q ) q <= _00_;
         endmodule",
        "module t(clk, en, q);
           wire [3:0] _00_; input clk; wire clk; input en; wire en; output [3:0] q;
           reg [3:0] q = 4'h0; wire \\en.q ; assign _00_ = \\en.q ? q + 4'h1 : q;
           assign \\en.q = en; always @(posedge clk) q <= _00_;
         endmodule",
        "",
        "q: PROVED 1 by s\nen.q: PROVED 1 by s\n",
    ),
];

/// Four pigeons in three holes.
const PIGEONS: &str = "module t(x, y); input [11:0] x; output y; assign y =
         (x[0] | x[1] | x[2]) & (x[3] | x[4] | x[5]) & (x[6] | x[7] | x[8])
         & (x[9] | x[10] | x[11]) & ~(x[0] & x[3]) & ~(x[0] & x[6]) & ~(x[0] & x[9])
         & ~(x[3] & x[6]) & ~(x[3] & x[9]) & ~(x[6] & x[9]) & ~(x[1] & x[4])
         & ~(x[1] & x[7]) & ~(x[1] & x[10]) & ~(x[4] & x[7]) & ~(x[4] & x[10])
         & ~(x[7] & x[10]) & ~(x[2] & x[5]) & ~(x[2] & x[8]) & ~(x[2] & x[11])
         & ~(x[5] & x[8]) & ~(x[5] & x[11]) & ~(x[8] & x[11]); endmodule";

const NEVER: &str = "module t(x, y); input [11:0] x; output y; assign y = 1'b0; endmodule";

static LIMITS: [Row; 2] = [
    // one conflict isn't enough
    (
        PIGEONS,
        NEVER,
        "depth 3\nconflicts 1\n",
        "y: UNKNOWN s conflicts 1\n",
    ),
    // for the first strategy
    (
        PIGEONS,
        NEVER,
        "depth 3\nconflicts 1\n[strategy t]\nuse sat\ndepth 3\n",
        "y: PROVED 1 by t\n",
    ),
];

#[test]
fn wires_come_out_as_reckoned_by_hand(rt: HostRuntime) -> Result<(), Fail> {
    assert_eq!(rt; first_wrong(rt.alloc(), &WIRES)?, None);
    Ok(())
}

#[test]
fn vectors_come_out_as_reckoned_by_hand(rt: HostRuntime) -> Result<(), Fail> {
    assert_eq!(rt; first_wrong(rt.alloc(), &VECTORS)?, None);
    Ok(())
}

#[test]
fn registers_come_out_as_reckoned_by_hand(rt: HostRuntime) -> Result<(), Fail> {
    assert_eq!(rt; first_wrong(rt.alloc(), &CYCLES)?, None);
    Ok(())
}

#[test]
fn a_strategy_spends_its_conflicts_and_the_next_decides(rt: HostRuntime) -> Result<(), Fail> {
    assert_eq!(rt; first_wrong(rt.alloc(), &LIMITS)?, None);
    Ok(())
}

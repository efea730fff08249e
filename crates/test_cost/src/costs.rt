//! Texts with their costs, reckoned by hand: 2, a node for each bit, and the items, of the top and of each instance, and 1
//! for each instance below the top.

use crate::reading::told_of;
use std::alloc::Global;
use std::test::Fail;

/// A text, its cost, and the cost that is too much.
type Row = (&'static str, u64, Option<u64>);

static ROWS: [Row; 18] = [
    // a name and a constant
    ("module t(y); output y; assign y = 1'b0; endmodule", 3, None),
    // a shift of five bits by one
    (
        "module t(a, b, y); input [3:0] a, b; output [4:0] y; assign y = a >> b[0]; endmodule",
        20,
        None,
    ),
    // a gate of two inputs
    (
        "module t(a, y); input a; output y; or (y, a, a); endmodule",
        13,
        None,
    ),
    // two outputs of one input, which costs 1 itself
    (
        "module t(a, x, y); input a; output x, y; not (x, y, ~a); endmodule",
        16,
        None,
    ),
    // two instances of three nodes, each told with 1 more
    (
        "module t(a, y); input a; output y; wire b; n u(a, b); n v(b, y); endmodule
         module n(i, o); input i; output o; assign o = ~i; endmodule",
        13,
        None,
    ),
    // by name, in the two bits of the port
    (
        "module t(a, b); input a, b; n u(.i(a + b)); endmodule
         module n(i); input [1:0] i; endmodule",
        17,
        None,
    ),
    // an output's connection costs nothing, and an open one
    (
        "module t(y); output y; n u(.o(y), .i()); endmodule
         module n(i, o); input i; output o; assign o = i; endmodule",
        6,
        None,
    ),
    // a condition of two bits, and the two bits that are set
    (
        "module t(c, a, q); input c; input [1:0] a; output [1:0] q; reg [1:0] q;
         always @(posedge c) if (a) q <= a; endmodule",
        17,
        None,
    ),
    // the same bits set twice, behind an `if` that sets none
    (
        "module t(c, a, q); input c; input [1:0] a; output [1:0] q; reg [1:0] q;
         always @(posedge c) begin if (a) ; q <= a; {q[0]} <= a[1]; end endmodule",
        17,
        None,
    ),
    // an `else`, and bits of two nets
    (
        "module t(c, a, q, r); input c, a; output [1:0] q; output r; reg [1:0] q; reg r;
         always @(posedge c) if (a) {r, q[1]} <= {a, a}; else q <= ~{a, a}; endmodule",
        16,
        None,
    ),
    // what is repeated costs once
    (
        "module t(a, b, y); input [3:0] a, b; output [11:0] y; assign y = {3{a & b}}; endmodule",
        26,
        None,
    ),
    // in the larger of two sizes
    (
        "module t(a, b, y); input [3:0] a; input [7:0] b; output y; assign y = a == b; endmodule",
        39,
        None,
    ),
    // each in its own
    (
        "module t(a, b, y); input [3:0] a; input [7:0] b; output y; assign y = a && b; endmodule",
        67,
        None,
    ),
    (
        "module t(c, a, b, y); input [1:0] c; input [3:0] a, b; output [3:0] y;
         assign y = c ? a : b; endmodule",
        28,
        None,
    ),
    // in the five bits of the target
    (
        "module t(a, y); input [3:0] a; output [4:0] y; assign y = -a; endmodule",
        41,
        None,
    ),
    // parts in their own sizes, ranges in both directions
    (
        "module t(a, b, y); input [0:3] a; input [3:0] b; output [9:0] y;
         assign y = {a + b, a[0:1] ^ b[3:2], &a}; endmodule",
        46,
        None,
    ),
    // the largest shift, and two of them
    (
        "module t(a, b, y); input [1023:0] a, b; output [1023:0] y; assign y = a >> b; endmodule",
        1_051_650,
        None,
    ),
    (
        "module t(a, b, y, z); input [1023:0] a, b; output [1023:0] y, z;
         assign y = a >> b; assign z = a << b; endmodule",
        2_101_250,
        Some(2_101_250),
    ),
];

/// Whether a text's design costs what is wanted.
fn is_right(alloc: Global, row: &Row) -> Result<bool, Fail> {
    let told = told_of(alloc, row.0.as_bytes())?;
    Ok(told.cost == row.1 && told.excess == row.2)
}

/// The first row that isn't right.
fn first_wrong(alloc: Global) -> Result<Option<usize>, Fail> {
    for (place, row) in ROWS.iter().enumerate() {
        if !is_right(alloc, row)? {
            return Ok(Some(place));
        }
    }
    Ok(None)
}

#[test]
fn designs_cost_what_was_reckoned(rt: HostRuntime) -> Result<(), Fail> {
    assert_eq!(rt; first_wrong(rt.alloc())?, None);
    Ok(())
}

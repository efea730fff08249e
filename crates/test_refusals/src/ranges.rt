//! Ranges of nets, selects, repeats, and sizes of expressions.

use crate::reading::{Row, first_wrong};
use eq_verilog::ElabKind;
use std::test::Fail;

/// The name of a net.
static NETS: [Row; 22] = [
    // 1,025 bits, and as many as can be written
    ("module t; wire [1024:0] a; endmodule", "a"),
    ("module t; reg [1:1025] a; endmodule", "a"),
    ("module t(a); input [2147483647:0] a; endmodule", "a"),
    // two ranges
    ("module t(a); input [3:0] a; wire [0:3] a; endmodule", "a"),
    ("module t(a); input [3:0] a; wire a; endmodule", "a"),
    ("module t(q); output q; reg [0:0] q; endmodule", "q"),
    // selects outside
    (
        "module t(a, y); input [3:0] a; output y; assign y = a[4]; endmodule",
        "a",
    ),
    (
        "module t(a, y); input [7:4] a; output y; assign y = a[3]; endmodule",
        "a",
    ),
    (
        "module t(a, y); input [4:7] a; output y; assign y = a[7:8]; endmodule",
        "a",
    ),
    (
        "module t(a, y); input [3:0] a; output y; assign y = a[2147483647:0]; endmodule",
        "a",
    ),
    // against the direction
    (
        "module t(a, y); input [3:0] a; output y; assign y = a[0:1]; endmodule",
        "a",
    ),
    (
        "module t(a, y); input [0:3] a; output y; assign y = a[3:2]; endmodule",
        "a",
    ),
    // of a net without a range
    (
        "module t(a, y); input a; output y; assign y = a[0]; endmodule",
        "a",
    ),
    (
        "module t(a, y); input a; output y; assign y = a[65536:0]; endmodule",
        "a",
    ),
    // in a target, an event, a condition, an initial value, a connection and a terminal
    (
        "module t(y); output [3:0] y; assign {y[0], y[5:4]} = 3'h0; endmodule",
        "y",
    ),
    (
        "module t(c); input c; always @(posedge c[0]) ; endmodule",
        "c",
    ),
    (
        "module t(c); input c; always @(posedge c) if (c) ; else if (c[1]) ; endmodule",
        "c",
    ),
    ("module t; reg [1:0] q; initial q[2] = 1'b0; endmodule", "q"),
    (
        "module t(a); input a; m u(.i(), .j(a[1])); endmodule module m(i, j); input i, j; endmodule",
        "a",
    ),
    // the first place
    (
        "module t(a, b, y); input a, b; output y; assign y = b[0] & a[0]; endmodule",
        "b",
    ),
    (
        "module t(a, y); input a; output y; wire [1024:0] w; assign y = a[0]; wire [2:0] y; endmodule",
        "w",
    ),
    // the first module that is visited
    (
        "module m(a); input [1024:0] a; endmodule module t; wire [1024:0] b; m u(); endmodule",
        "b",
    ),
];

/// The name of the module.
static SIZES: [Row; 14] = [
    // repeats of nothing
    (
        "module t(y); output y; assign y = {0{1'b1}}; endmodule",
        "t",
    ),
    (
        "module t(y); output y; assign y = {y, {0{y[0]}}}; endmodule",
        "t",
    ),
    (
        "module t; m u(); endmodule module m(y); output y; assign y = ~{0{1'b1}}; endmodule",
        "m",
    ),
    // 65,537 bits
    (
        "module t(a, y); input a; output y; assign y = {65537{a}}; endmodule",
        "t",
    ),
    (
        "module t(a, b, y); input [1023:0] a; input b; output y; assign y = {{64{a}}, b}; endmodule",
        "t",
    ),
    (
        "module t(a, y); input a; output y; assign y = ^{2147483647{a}}; endmodule",
        "t",
    ),
    // an amount of a shift, a condition, an operand of a comparison
    (
        "module t(a, y); input a; output y; assign y = a << {65537{a}}; endmodule",
        "t",
    ),
    (
        "module t(a, y); input a; output y; assign y = {65537{a}} ? a : a; endmodule",
        "t",
    ),
    (
        "module t(a, y); input a; output y; assign y = a == {65537{a}}; endmodule",
        "t",
    ),
    // two parts that are each not too large
    (
        "module t(a, y); input a; output y; assign y = {{40000{a}}, {40000{a}}}; endmodule",
        "t",
    ),
    (
        "module t(a, y); input a; output y; assign y = {2{{40000{a}} + a}}; endmodule",
        "t",
    ),
    // what an output is connected to
    (
        "module t; wire w; m u({65537{w}}); endmodule module m(o); output o; endmodule",
        "t",
    ),
    // before its parts
    (
        "module t(a, y); input a; output y; assign y = {{65537{a}}, a[0]}; endmodule",
        "t",
    ),
    // a net of too many bits that is used before it is declared
    (
        "module t(y); output y; assign y = ^w; wire [65536:0] w; endmodule",
        "t",
    ),
];

#[test]
fn ranges_and_selects_are_refused(rt: HostRuntime) -> Result<(), Fail> {
    let wrong = first_wrong(rt.alloc(), ElabKind::BadRange, &NETS)?;
    assert_eq!(rt; wrong, None);
    Ok(())
}

#[test]
fn empty_and_large_expressions_are_refused(rt: HostRuntime) -> Result<(), Fail> {
    let wrong = first_wrong(rt.alloc(), ElabKind::BadRange, &SIZES)?;
    assert_eq!(rt; wrong, None);
    Ok(())
}

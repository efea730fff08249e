//! Targets of a wrong net or with a bit twice, and outputs that are connected to no target.

use crate::reading::{Row, first_wrong};
use eq_verilog::ElabKind;
use std::test::Fail;

/// The name of a net.
static NETS: [Row; 25] = [
    // an equation for a reg or an input
    ("module t; reg q; assign q = 1'b0; endmodule", "q"),
    (
        "module t(q); output q; assign q = 1'b0; reg q; endmodule",
        "q",
    ),
    ("module t(a); input a; assign a = 1'b0; endmodule", "a"),
    (
        "module t(a, y); input [3:0] a; output y; assign {y, a[2:1]} = 3'h0; endmodule",
        "a",
    ),
    // what is set is no reg
    (
        "module t(c); input c; wire w; always @(posedge c) w <= c; endmodule",
        "w",
    ),
    (
        "module t(c, y); input c; output y; always @(posedge c) y <= c; endmodule",
        "y",
    ),
    (
        "module t(c, a); input c, a; always @(posedge c) if (c) ; else begin ; a <= c; end endmodule",
        "a",
    ),
    // an initial value of what is no reg
    ("module t; wire w; initial w = 1'b0; endmodule", "w"),
    ("module t(a); input a; initial a = 1'b0; endmodule", "a"),
    // an input that is a reg
    ("module t(a); input a; reg a; endmodule", "a"),
    ("module t(a); reg [3:0] a; input [3:0] a; endmodule", "a"),
    // a bit twice in one target
    (
        "module t(y); output [3:0] y; assign {y[1], y[2:1]} = 3'h0; endmodule",
        "y",
    ),
    (
        "module t(y); output [0:3] y; assign {y[0], {y[3], y[2:3]}} = 4'h0; endmodule",
        "y",
    ),
    (
        "module t(c); input c; reg q; always @(posedge c) {q, q} <= 2'h0; endmodule",
        "q",
    ),
    (
        "module t; reg [1:0] q; initial {q, q[1]} = 3'h0; endmodule",
        "q",
    ),
    // more than 65,536 bits of a target are that alone
    (
        "module t; wire [1023:0] w; assign {
      w,w,w,w,w,w,w,w,w,w,w,w,w,w,w,w,w,w,w,w,w,w,w,w,w,w,w,w,w,w,w,w,w,
      w,w,w,w,w,w,w,w,w,w,w,w,w,w,w,w,w,w,w,w,w,w,w,w,w,w,w,w,w,w,w,w,w} = 1'b0; endmodule",
        "w",
    ),
    // an output of an instance
    (
        "module t; reg q; m u(.o(q)); endmodule module m(o); output o; endmodule",
        "q",
    ),
    (
        "module t(a); input [1:0] a; m u(, a[1]); endmodule module m(i, o); input i; output o; endmodule",
        "a",
    ),
    (
        "module t; wire w; m u({w, w}); endmodule module m(o); output [1:0] o; endmodule",
        "w",
    ),
    // outputs of gates: the first terminal, or all but the last
    ("module t(a); input a; reg q; and (q, a, a); endmodule", "q"),
    (
        "module t(a); input a; wire w; buf g(w, a, w); endmodule",
        "a",
    ),
    // the first place in a target, in a module, and in a statement
    (
        "module t(a); input a; reg q; assign {q, a} = 2'h0; endmodule",
        "q",
    ),
    (
        "module t; wire w; reg q; initial w = 1'b0; assign q = 1'b0; endmodule",
        "w",
    ),
    (
        "module t(c); input c; wire v, w; always @(posedge c) begin if (c) ; else w <= c; v <= c; end
      endmodule",
        "w",
    ),
    // the first module that is visited
    (
        "module m(a); input a; reg a; endmodule module t(b); input b; m u(); assign b = 1'b0; endmodule",
        "b",
    ),
];

/// The name of the module.
static MODULES: [Row; 9] = [
    // an output that is connected to no target
    (
        "module t; m u(1'b0); endmodule module m(o); output o; endmodule",
        "t",
    ),
    (
        "module t; wire w; m u(.o(~w)); endmodule module m(o); output o; endmodule",
        "t",
    ),
    (
        "module t; wire w; m u(w + w); endmodule module m(output reg o); endmodule",
        "t",
    ),
    (
        "module t; wire w; m u({1{w}}); endmodule module m(o); output o; endmodule",
        "t",
    ),
    (
        "module t; m u(); endmodule module m; wire w; n u(w & w); endmodule
      module n(o); output o; endmodule",
        "m",
    ),
    // told before its nets
    (
        "module t(a); input a; m u({a, {a, 1'b0}}); endmodule module m(o); output o; endmodule",
        "t",
    ),
    // of a gate
    ("module t(a); input a; or g(a & a, a, a); endmodule", "t"),
    (
        "module t(a); input a; wire w; not g(w, 1'b0, a); endmodule",
        "t",
    ),
    // the first connection, as it is written
    (
        "module t; wire w; reg q; m u(.p(~w), .o(q)); endmodule module m(o, p); output o, p; endmodule",
        "t",
    ),
];

#[test]
fn targets_of_a_wrong_net_or_with_a_bit_twice_are_refused(rt: HostRuntime) -> Result<(), Fail> {
    let wrong = first_wrong(rt.alloc(), ElabKind::BadTarget, &NETS)?;
    assert_eq!(rt; wrong, None);
    Ok(())
}

#[test]
fn outputs_that_are_connected_to_no_target_are_refused(rt: HostRuntime) -> Result<(), Fail> {
    let wrong = first_wrong(rt.alloc(), ElabKind::BadTarget, &MODULES)?;
    assert_eq!(rt; wrong, None);
    Ok(())
}

//! Designs that aren't refused for their modules.

use crate::reading::is_accepted;
use std::alloc::Global;
use std::test::Fail;

static ACCEPTED: [&str; 28] = [
    "module t; endmodule",
    // gates, instances by order and by name, an always item, initial values
    "module t(c, a, b, y, q); input c, a, b; output y, q; reg q, r; wire n, m; initial r = 1'b1;
     nand g(n, a, b); not (y, n); s u(n, m), v(.o(), .i(a + b)); s w();
     always @(posedge c) if (a) {q, r} <= {n, m}; else begin q <= b; end endmodule
     module s(i, o); input i; output o; assign o = ~i; endmodule",
    // declared in the header
    "module t(input c, input [3:0] a, output reg [3:0] q = 4'h3, output y); assign y = ^q;
     always @(posedge c) q <= a; endmodule",
    // a direction with a wire or a reg of the same range, in either order
    "module t(a, q, y); input [3:0] a; wire [3:0] a; reg [0:1] q; output [0:1] q; output y;
     wire y; endmodule",
    // used before it is declared
    "module t(y); assign y = w; wire w; output y; endmodule",
    // modules that are instantiated twice, also through others, or before they stand
    "module n; endmodule module t; m u(), v(); n w(); endmodule module m; n u(); endmodule",
    // an instance with the name of its module, and of nets of others
    "module t; wire w; m m(); endmodule module m; wire m; n w(); endmodule module n; endmodule",
    // gates without a name
    "module t(a, x, y); input a; output x, y; buf (x, a), (y, a); endmodule",
    // nothing that isn't reached is looked at
    "module t; endmodule module m; n u(); m v(); endmodule",
    "module t; endmodule module m(b); wire w, w; assign w = z; endmodule",
    "module t; endmodule module m(a); input a; reg [1024:0] q; assign a = {0{q[9999]}}; buf (a);
     m u(a, a); endmodule",
    // 1,024 bits
    "module t; wire [1023:0] a; wire [0:1023] b; reg [2147483647:2147482624] c; endmodule",
    // 65,536 bits
    "module t(a, y); input [1023:0] a; output y; assign y = {64{a}}; endmodule",
    "module t(a, b, y); input [1022:0] a; input b; output y;
     assign y = {{63{a, b}}, a, b}; endmodule",
    "module t(a, y); input a; output y; assign y = {65536{a}} & {512{128'h1}}; endmodule",
    // one bit each, however large the parts
    "module t(a, y); input [1023:0] a; output y;
     assign y = {2{{32768{a[0]}} == {64{a}}}}; endmodule",
    // selects up to both ends, in both directions
    "module t(a, b, y); input [7:4] a; input [4:7] b; output [11:0] y;
     assign y = {a[7:4], b[4:7], a[7], a[4], b[4], b[7]}; endmodule",
    "module t(a, y); input [3:0] a; output [0:3] y; assign y[1:2] = a[2:2]; endmodule",
    // an event that is a bit
    "module t(c); input [1:0] c; reg q; always @(posedge c[1]) q <= ~q; endmodule",
    // a net in several parts of a target, and in several targets
    "module t(y); output [3:0] y; assign {y[0], {y[3], y[2:1]}} = 4'h5; endmodule",
    "module t(y); output y; assign y = 1'b0, y = 1'b1; endmodule",
    "module t(c); input c; reg q = 1'b0; initial q = 1'b1;
     always @(posedge c) begin q <= c; q <= ~q; end endmodule",
    // a reg and an input as inputs of gates and instances
    "module t(a, x, y); input a; output x, y; reg q; and (x, q, a); buf (y, q); m u(q), v(.i(a));
     endmodule module m(i); input i; endmodule",
    // all outputs of a gate are wires
    "module t(a, x, y); input a; output x; output y; wire w; not (w, x, y, a); endmodule",
    // an output that is connected to a select, a concatenation and nothing
    "module t(y); output [3:0] y; m u(y[3]), v({y[1:0], y[2]}), w(), x(.o()); endmodule
     module m(o); output o; assign o = 1'b0; endmodule",
    // an input that is connected to nothing, by order
    "module t(y); output y; m u(, y); endmodule
     module m(i, o); input i; output o; assign o = i; endmodule",
    // ports by name in any order, of any width
    "module t(a); input [3:0] a; m u(.j(a), .i(a[0])); endmodule
     module m(i, j); input [1:0] i; input j; endmodule",
    // terminals of one bit
    "module t(a, y); input [3:0] a; output [3:0] y; xor (y[0], a[1], &a, a == 4'h2, 1'b1);
     endmodule",
];

/// The first text that is refused.
fn first_refused(alloc: Global) -> Result<Option<usize>, Fail> {
    for (place, text) in ACCEPTED.iter().enumerate() {
        if !is_accepted(alloc, &[*text])? {
            return Ok(Some(place));
        }
    }
    Ok(None)
}

#[test]
fn designs_without_faults_are_accepted(rt: HostRuntime) -> Result<(), Fail> {
    assert_eq!(rt; first_refused(rt.alloc())?, None);
    Ok(())
}

#[test]
fn modules_of_two_sources_are_one_design(rt: HostRuntime) -> Result<(), Fail> {
    let texts = [
        "module m; n u(); endmodule",
        "module t; m u(); endmodule module n; endmodule",
    ];
    assert_eq!(rt; is_accepted(rt.alloc(), &texts)?, true);
    Ok(())
}

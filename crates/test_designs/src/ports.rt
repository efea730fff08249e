//! Whether two designs of texts have the same ports. Netlists made by hand stand in `test_elab`.

use crate::reading::netlist_of;
use eq_marks::{PortErr, same_ports};
use eq_net::Net;
use std::alloc::Global;
use std::test::Fail;

/// The texts of gold and gate, and what is refused.
type Row = (&'static str, &'static str, Option<PortErr>);

static COMBINATIONAL: [Row; 9] = [
    // equal, whatever stands inside; in another order; with another range of as many bits
    (
        "module t(a, b, y); input a, b; output y; assign y = a & b; endmodule",
        "module t(a, b, y); input a, b; output y; wire w; nand (w, a, b); not (y, w); endmodule",
        None,
    ),
    (
        "module t(a, b, y); input [3:0] a; input b; output [7:4] y; assign y = a + b; endmodule",
        "module t(y, b, a); output [0:3] y; input [5:5] b; input [4:1] a; assign y = b; endmodule",
        None,
    ),
    // two ports that gate lacks, and two that gold lacks
    (
        "module t(a, b, c, y); input a, b, c; output y; assign y = a & b & c; endmodule",
        "module t(a, y); input a; output y; assign y = a; endmodule",
        Some(PortErr::Missing {
            in_gate: true,
            port: 1,
        }),
    ),
    (
        "module t(a, y); input a; output y; assign y = a; endmodule",
        "module t(a, y, c, b); input a, b, c; output y; assign y = a & b & c; endmodule",
        Some(PortErr::Missing {
            in_gate: false,
            port: 2,
        }),
    ),
    // one that each lacks, and a net that is no port
    (
        "module t(a, b, y); input a, b; output y; assign y = a; endmodule",
        "module t(c, a, y); input a, c; output y; wire b; assign y = a; endmodule",
        Some(PortErr::Missing {
            in_gate: true,
            port: 1,
        }),
    ),
    // two directions, before a width
    (
        "module t(a, b, y); input [1:0] a; input b; output y; assign y = a[0]; endmodule",
        "module t(a, b, y); input a, y; output b; assign b = a; endmodule",
        Some(PortErr::Direction { port: 1 }),
    ),
    // a port that gold lacks, before a direction
    (
        "module t(a, b, y); input a, b; output y; assign y = a; endmodule",
        "module t(a, b, y, z); input a; output b, y, z; assign y = a, b = a, z = a; endmodule",
        Some(PortErr::Missing {
            in_gate: false,
            port: 3,
        }),
    ),
    // two widths
    (
        "module t(a, b, y); input a; input [3:0] b; output y; assign y = a; endmodule",
        "module t(a, b, y); input a; input [4:0] b; output [1:0] y; assign y = a; endmodule",
        Some(PortErr::Width { port: 1 }),
    ),
    (
        "module t(y, b, a); input a; input [3:0] b; output y; assign y = a; endmodule",
        "module t(a, b, y); input a; input [4:0] b; output [1:0] y; assign y = a; endmodule",
        Some(PortErr::Width { port: 0 }),
    ),
];

static CLOCKED: [Row; 9] = [
    // the same clock, also behind an instance
    (
        "module t(c, q); input c; output reg q = 1'b0; always @(posedge c) q <= ~q; endmodule",
        "module t(q, c); input c; output q; m u(.k(c), .o(q)); endmodule
         module m(k, o); input k; output o; reg o = 1'b1; always @(posedge k) o <= ~o; endmodule",
        None,
    ),
    // two clocks: gold's is told
    (
        "module t(d, c, q); input c, d; output reg q = 1'b0; always @(posedge c) q <= d; endmodule",
        "module t(d, c, q); input c, d; output reg q = 1'b0; always @(posedge d) q <= c; endmodule",
        Some(PortErr::Clock { port: 1 }),
    ),
    // a width, before a clock
    (
        "module t(c, d, q); input c, d; output reg q = 1'b0; always @(posedge c) q <= d; endmodule",
        "module t(c, d, q); input c, d; output reg [1:0] q = 2'b0; always @(posedge d) q <= c;
         endmodule",
        Some(PortErr::Width { port: 2 }),
    ),
    // one side has none: it ignores the other's, or copies it and reads no copy
    (
        "module t(c, q); input c; output reg q = 1'b0; always @(posedge c) q <= ~q; endmodule",
        "module t(c, q); input c; output reg q = 1'b0; endmodule",
        None,
    ),
    (
        "module t(c, q); input c; output q; wire v, w; assign v = c; buf (w, v); assign q = 1'b0;
         m u(w); endmodule module m(i); input i; endmodule",
        "module t(c, q); input c; output reg q = 1'b0; always @(posedge c) q <= ~q; endmodule",
        None,
    ),
    // it reads it, keeps it, or reads a copy in an instance
    (
        "module t(c, q); input c; output reg q = 1'b0; always @(posedge c) q <= ~q; endmodule",
        "module t(c, q); input c; output q; not (q, c); endmodule",
        Some(PortErr::Clock { port: 0 }),
    ),
    (
        "module t(q, d, c); input c, d; output q; reg q = 1'b0; always @(posedge d) q <= ~q; endmodule",
        "module t(c, d, q); input c, d; output q; m u(d, q); endmodule
         module m(i, o); input i; output o; n v(i, o); endmodule
         module n(i, o); input i; output o; and (o, i, 1'b1); endmodule",
        Some(PortErr::Clock { port: 1 }),
    ),
    // gate alone has a clock, and gold passes it on to an output: gold's place is told
    (
        "module t(b, a, q); input a, b; output q; wire w; buf (w, a); assign q = w; endmodule",
        "module t(a, b, q); input a, b; output reg q = 1'b0; always @(posedge a) q <= b; endmodule",
        Some(PortErr::Clock { port: 1 }),
    ),
    // an always item that sets nothing is a clock
    (
        "module t(a, q); input a; output q; reg r = 1'b0; assign q = r; always @(posedge a) ; endmodule",
        "module t(a, q); input a; output q; assign q = ~a; endmodule",
        Some(PortErr::Clock { port: 0 }),
    ),
];

fn made(alloc: Global, text: &str) -> Option<Net> {
    let texts = [text.as_bytes()];
    netlist_of(alloc, &texts, b"t").ok()
}

/// What is refused of two designs.
fn refused(alloc: Global, gold: &Net, gate: &Net) -> Option<PortErr> {
    match same_ports(alloc, gold, gate) {
        Ok(()) => None,
        Err(fault) => Some(fault),
    }
}

fn is_right(alloc: Global, row: &Row) -> bool {
    match (made(alloc, row.0), made(alloc, row.1)) {
        (Some(gold), Some(gate)) => refused(alloc, &gold, &gate) == row.2,
        _ => false,
    }
}

/// The first row of which something else is said.
fn first_wrong(alloc: Global, rows: &[Row]) -> Option<usize> {
    for (place, row) in rows.iter().enumerate() {
        if !is_right(alloc, row) {
            return Some(place);
        }
    }
    None
}

#[test]
fn ports_of_texts_are_compared(rt: HostRuntime) -> Result<(), Fail> {
    assert_eq!(rt; first_wrong(rt.alloc(), &COMBINATIONAL), None);
    Ok(())
}

#[test]
fn clocks_of_texts_are_compared(rt: HostRuntime) -> Result<(), Fail> {
    assert_eq!(rt; first_wrong(rt.alloc(), &CLOCKED), None);
    Ok(())
}

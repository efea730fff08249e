//! Bits that read themselves within a cycle, directly or through others.

use crate::reading::{Fault, netlist_of};
use eq_elab::{BitNames, ElabErr};
use std::alloc::Global;
use std::test::Fail;

/// A text, the name of the first bit that is on a loop, and the loop: for each bit, which reads the next, the number of its
/// net and its position.
type Row = (&'static str, &'static str, &'static [(u32, u32)]);

static TWO_WIRES: [Row; 3] = [
    (
        "module t; wire [1:0] c; assign c[1] = c[0]; assign c[0] = c[1]; endmodule",
        "c[0]",
        &[(0, 0), (0, 1)],
    ),
    // position 0 of [0:1] is bit 1
    (
        "module t; wire [0:1] c; assign c[1] = c[0]; assign c[0] = c[1]; endmodule",
        "c[1]",
        &[(0, 0), (0, 1)],
    ),
    (
        "module t(x, y); output x, y; buf (x, y); not (y, x); endmodule",
        "x",
        &[(0, 0), (1, 0)],
    ),
];

static ROWS: [Row; 8] = [
    // a bit that reads itself
    (
        "module t(a, y); input a; output y; assign y = a & y; endmodule",
        "y",
        &[(1, 0)],
    ),
    // bit 0 of a sum reads bit 0 of both operands
    (
        "module t(a, y); input [3:0] a; output [3:0] y; assign y = a + y; endmodule",
        "y[0]",
        &[(1, 0)],
    ),
    // a shift reads all bits of its amount
    (
        "module t(a, y); input [3:0] a; output [3:0] y; assign y = a >> y[3]; endmodule",
        "y[3]",
        &[(1, 3)],
    ),
    // through two instances of one module: y, v.o, v.i, w, u.o, u.i
    (
        "module t(y); output y; wire w; m u(y, w), v(w, y); endmodule
         module m(i, o); input i; output o; assign o = ~i; endmodule",
        "y",
        &[(0, 0), (5, 0), (4, 0), (1, 0), (3, 0), (2, 0)],
    ),
    // inside an instance
    (
        "module t(a); input a; m u(a); endmodule
         module m(i); input i; wire v, w; and (v, w, i); or (w, v, i); endmodule",
        "u.v",
        &[(2, 0), (3, 0)],
    ),
    // the first of two loops, wherever they stand in the text
    (
        "module t; wire b, c, d, e; assign c = d, d = c; assign e = b, b = e; endmodule",
        "b",
        &[(0, 0), (3, 0)],
    ),
    // a bit that reads a loop and is on none comes first
    (
        "module t; wire a, b, c; assign a = b, b = c, c = b; endmodule",
        "b",
        &[(1, 0), (2, 0)],
    ),
    // the other branch of a condition, and a register that is on no loop
    (
        "module t(c, s, y); input c, s; output y; reg q = 1'b0; wire w;
         always @(posedge c) q <= y; assign w = s ? q : y, y = s ? w : q; endmodule",
        "y",
        &[(2, 0), (4, 0)],
    ),
];

/// Whether these are the bits of a loop.
fn are_bits(cycle: &BitNames, wanted: &[(u32, u32)]) -> bool {
    if cycle.len() != wanted.len() {
        return false;
    }
    cycle
        .as_slice()
        .iter()
        .zip(wanted)
        .all(|(bit, (net, place))| bit.net == *net && bit.bit == *place)
}

/// Whether a design is refused for this loop.
fn is_refused(alloc: Global, row: &Row) -> bool {
    let texts = [row.0.as_bytes()];
    match netlist_of(alloc, &texts, b"t") {
        Err(Fault::Refused(ElabErr::Loop { cycle, name })) => {
            name.bytes() == row.1.as_bytes() && are_bits(&cycle, row.2)
        }
        _ => false,
    }
}

/// The first row that isn't right.
fn first_wrong(alloc: Global, rows: &[Row]) -> Option<usize> {
    for (place, row) in rows.iter().enumerate() {
        if !is_refused(alloc, row) {
            return Some(place);
        }
    }
    None
}

#[test]
fn a_loop_of_two_wires_is_told(rt: HostRuntime) -> Result<(), Fail> {
    assert_eq!(rt; first_wrong(rt.alloc(), &TWO_WIRES), None);
    Ok(())
}

#[test]
fn the_first_loop_is_told_with_its_bits(rt: HostRuntime) -> Result<(), Fail> {
    assert_eq!(rt; first_wrong(rt.alloc(), &ROWS), None);
    Ok(())
}

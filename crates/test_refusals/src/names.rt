//! Names that stand twice in a module, or aren't known there.

use crate::reading::{Row, first_wrong};
use eq_verilog::ElabKind;
use std::test::Fail;

static TWICE: [Row; 18] = [
    // the header
    ("module t(a, a); input a; endmodule", "a"),
    // directions
    ("module t(a); input a, a; endmodule", "a"),
    ("module t(a); input a; output a; endmodule", "a"),
    ("module t(input a); output a; endmodule", "a"),
    // wires and regs
    ("module t; wire w, w; endmodule", "w"),
    ("module t; wire w; reg w; endmodule", "w"),
    ("module t(output reg q); reg q; endmodule", "q"),
    ("module t(a); wire a; input a; wire a; endmodule", "a"),
    // an instance or a gate with the name of a net
    (
        "module t; wire w; m w(); endmodule module m; endmodule",
        "w",
    ),
    ("module t; m w(); reg w; endmodule module m; endmodule", "w"),
    ("module t(a); m a(); endmodule module m; endmodule", "a"),
    (
        "module t(a, y); input a; output y; buf y(y, a); endmodule",
        "y",
    ),
    // two instances or gates of one name
    (
        "module t; m u(), v(), u(); endmodule module m; endmodule",
        "u",
    ),
    (
        "module t(a, x, y); input a; output x, y; buf g(x, a); not g(y, a); endmodule",
        "g",
    ),
    (
        "module t(a, y); input a; output y; m u(); buf u(y, a); endmodule module m; endmodule",
        "u",
    ),
    // the first place, the header before the items
    ("module t(b, a, a, b); wire w, w; endmodule", "a"),
    (
        "module t; wire v, w; m x(); wire w, v, x; endmodule module m; endmodule",
        "x",
    ),
    // the first module that is visited
    (
        "module m; wire a, a; endmodule module t; m u(); wire b, b; endmodule",
        "b",
    ),
];

static UNKNOWN: [Row; 20] = [
    // what isn't declared, as a right side, a part of one, or a target
    ("module t(y); output y; assign y = a; endmodule", "a"),
    (
        "module t(y); output [3:0] y; assign y = {2{~y[0] & (y[1] ? y[3:2] : a[1:0])}}; endmodule",
        "a",
    ),
    ("module t; assign {y[0]} = 1'b0; endmodule", "y"),
    // in an always item
    ("module t; always @(posedge c) ; endmodule", "c"),
    (
        "module t(c); input c; always @(posedge c) if (a) ; endmodule",
        "a",
    ),
    (
        "module t(c); input c; always @(posedge c) if (c) ; else begin ; q <= c; end endmodule",
        "q",
    ),
    // an initial value
    ("module t; initial q = 1'b0; endmodule", "q"),
    // a connection, also to no port, and a terminal
    (
        "module t; m u(.i(a)); endmodule module m(i); input i; endmodule",
        "a",
    ),
    (
        "module t; m u(, a); endmodule module m(i); input i; endmodule",
        "a",
    ),
    ("module t(y); output y; xor (y, y, a); endmodule", "a"),
    // the name of an instance, of a gate, of a module, of a net of another module
    (
        "module t(y); output y; m u(); assign y = u; endmodule module m; endmodule",
        "u",
    ),
    ("module t(y); output y; buf g(y, g); endmodule", "g"),
    (
        "module t(y); output y; m u(); assign y = w; endmodule module m; wire w; endmodule",
        "w",
    ),
    // ports without direction
    ("module t(a); endmodule", "a"),
    ("module t(a, b); input a; reg b; endmodule", "b"),
    // directions of no port
    ("module t; output reg q; endmodule", "q"),
    // the first place: ports, then items in the order of the text
    (
        "module t(b, y); input z; output y; assign y = a; endmodule",
        "b",
    ),
    (
        "module t(y); output y; assign y = b & a; input z; endmodule",
        "b",
    ),
    (
        "module t(c); input c; always @(posedge c) if (y) b <= a; endmodule",
        "y",
    ),
    // the first module that is visited
    ("module m(a); endmodule module t(b); m u(); endmodule", "b"),
];

#[test]
fn names_that_stand_twice_are_refused(rt: HostRuntime) -> Result<(), Fail> {
    let wrong = first_wrong(rt.alloc(), ElabKind::DuplicateName, &TWICE)?;
    assert_eq!(rt; wrong, None);
    Ok(())
}

#[test]
fn names_that_are_not_known_are_refused(rt: HostRuntime) -> Result<(), Fail> {
    let wrong = first_wrong(rt.alloc(), ElabKind::UnknownName, &UNKNOWN)?;
    assert_eq!(rt; wrong, None);
    Ok(())
}

//! Nets of one full name, bits with two drivers or none, and registers without an initial value.

use crate::refusing::{Row, first_wrong};
use eq_elab::ElabKind;
use std::test::Fail;

/// Names of nets.
static CLASHES: [Row; 5] = [
    // an escaped name with a dot beside a net of an instance
    (
        "module t; wire \\u.w ; m u(); endmodule module m; wire w; endmodule",
        ElabKind::PathClash,
        "u.w",
    ),
    // behind two dots, below two instances
    (
        "module t; n \\u.v (); m u(); endmodule module m; n v(); endmodule
         module n; wire w; endmodule",
        ElabKind::PathClash,
        "u.v.w",
    ),
    // a port, also of another range
    (
        "module t(\\u.i ); input [3:0] \\u.i ; m u(); endmodule module m(i); input i; endmodule",
        ElabKind::PathClash,
        "u.i",
    ),
    // the first of two, in the order of the nets: below u stand a, then b
    (
        "module t; wire \\u.b , \\u.a ; m u(); endmodule module m; wire a, b; endmodule",
        ElabKind::PathClash,
        "u.a",
    ),
    // instances in their order
    (
        "module t; wire \\v.w , \\u.w ; m u(), v(); endmodule module m; wire w; endmodule",
        ElabKind::PathClash,
        "u.w",
    ),
];

/// Names of bits with two drivers.
static TWICE: [Row; 11] = [
    (
        "module t(a, y); input a; output y; assign y = a; assign y = ~a; endmodule",
        ElabKind::TwoDrivers,
        "y",
    ),
    // one bit of two that overlap
    (
        "module t(a, y); input [1:0] a; output [2:0] y; assign y[1:0] = a, y[2:1] = a; endmodule",
        ElabKind::TwoDrivers,
        "y[1]",
    ),
    // a gate and an assignment; two outputs of one gate
    (
        "module t(a, y); input a; output y; not (y, a); assign y = a; endmodule",
        ElabKind::TwoDrivers,
        "y",
    ),
    (
        "module t(a, y); input a; output y; buf (y, y, a); endmodule",
        ElabKind::TwoDrivers,
        "y",
    ),
    // an input of an instance that is driven inside it is a bad target, an output from both sides has two drivers
    (
        "module t(a, y); input a; output y; m u(y); assign y = a; endmodule
         module m(o); output o; assign o = 1'b0; endmodule",
        ElabKind::TwoDrivers,
        "y",
    ),
    // two always items, also where both set one bit in the same way
    (
        "module t(c, a); input c, a; reg [3:0] q; initial q = 4'h0;
         always @(posedge c) q[2:0] <= {3{a}}; always @(posedge c) q[3:2] <= {2{a}}; endmodule",
        ElabKind::TwoDrivers,
        "q[2]",
    ),
    // two initial values
    (
        "module t(c, a); input c, a; reg q = 1'b0; initial q = 1'b0;
         always @(posedge c) q <= a; endmodule",
        ElabKind::TwoDrivers,
        "q",
    ),
    (
        "module t(c, a); input c, a; reg [0:3] q = 4'h0; initial begin q[3] = 1'b0; end
         always @(posedge c) q <= {4{a}}; endmodule",
        ElabKind::TwoDrivers,
        "q[3]",
    ),
    // the first bit, not the first place: position 0 of [0:3] is bit 3
    (
        "module t(a, y); input a; output [0:3] y;
         assign y = {4{a}}; assign y[0] = a; assign y[3] = a; endmodule",
        ElabKind::TwoDrivers,
        "y[3]",
    ),
    // below an instance, behind the nets of the top
    (
        "module t(a, y, z); input a; output y, z; m u(a, y); assign z = a; assign z = a; endmodule
         module m(i, o); input i; output o; assign o = i; assign o = i; endmodule",
        ElabKind::TwoDrivers,
        "z",
    ),
    (
        "module t(a, y); input a; output y; m u(a, y); endmodule
         module m(i, o); input i; output o; assign o = i; assign o = i; endmodule",
        ElabKind::TwoDrivers,
        "u.o",
    ),
];

/// Names of bits without driver.
static MISSED: [Row; 11] = [
    ("module t(y); output y; endmodule", ElabKind::Undriven, "y"),
    (
        "module t(a, y); input a; output [3:0] y; assign y[3] = a, y[1:0] = {a, a}; endmodule",
        ElabKind::Undriven,
        "y[2]",
    ),
    // what is read: by an assignment, a gate, a register, a condition, a port
    (
        "module t(y); output y; wire w; assign y = ~w; endmodule",
        ElabKind::Undriven,
        "w",
    ),
    (
        "module t(a, y); input a; output y; wire [1:0] w; assign w[0] = a; or (y, a, w[1]); endmodule",
        ElabKind::Undriven,
        "w[1]",
    ),
    (
        "module t(c); input c; wire w; reg q = 1'b0; always @(posedge c) q <= w; endmodule",
        ElabKind::Undriven,
        "w",
    ),
    (
        "module t(c); input c; wire w; reg q = 1'b0; always @(posedge c) if (w) q <= ~q; endmodule",
        ElabKind::Undriven,
        "w",
    ),
    (
        "module t; wire w; m u(.i(w)); endmodule module m(i); input i; endmodule",
        ElabKind::Undriven,
        "w",
    ),
    // an input that isn't connected, where it is read
    (
        "module t(y); output y; m u(.o(y)); endmodule
         module m(i, o); input i; output o; assign o = i; endmodule",
        ElabKind::Undriven,
        "u.i",
    ),
    // an upper bit that a narrower target leaves
    (
        "module t(y); output [1:0] y; m u(y[0]); endmodule
         module m(o); output o; assign o = 1'b1; endmodule",
        ElabKind::Undriven,
        "y[1]",
    ),
    // the first of two: by the order of the nets, and of the bits
    (
        "module t(z, y); output y, z; endmodule",
        ElabKind::Undriven,
        "z",
    ),
    (
        "module t(y); output [1:0] y; wire v, w; assign y = {v, w}; endmodule",
        ElabKind::Undriven,
        "v",
    ),
];

/// Names of registers.
static UNBEGUN: [Row; 4] = [
    (
        "module t(c, q); input c; output q; reg q; always @(posedge c) q <= ~q; endmodule",
        ElabKind::NoInit,
        "q",
    ),
    // of one bit of a net, and of a register that nothing sets or reads
    (
        "module t(c); input c; reg [3:0] q; initial begin q[3:2] = 2'h0; q[0] = 1'b1; end
         always @(posedge c) q <= ~q; endmodule",
        ElabKind::NoInit,
        "q[1]",
    ),
    ("module t; reg q; endmodule", ElabKind::NoInit, "q"),
    // the first of two
    (
        "module t; m u(); reg [0:1] r, q; endmodule module m; reg p; endmodule",
        ElabKind::NoInit,
        "r[1]",
    ),
];

#[test]
fn two_nets_of_one_name_are_refused(rt: HostRuntime) -> Result<(), Fail> {
    assert_eq!(rt; first_wrong(rt.alloc(), &CLASHES), None);
    Ok(())
}

#[test]
fn bits_with_two_drivers_are_refused(rt: HostRuntime) -> Result<(), Fail> {
    assert_eq!(rt; first_wrong(rt.alloc(), &TWICE), None);
    Ok(())
}

#[test]
fn bits_without_driver_that_are_needed_are_refused(rt: HostRuntime) -> Result<(), Fail> {
    assert_eq!(rt; first_wrong(rt.alloc(), &MISSED), None);
    Ok(())
}

#[test]
fn registers_without_an_initial_value_are_refused(rt: HostRuntime) -> Result<(), Fail> {
    assert_eq!(rt; first_wrong(rt.alloc(), &UNBEGUN), None);
    Ok(())
}

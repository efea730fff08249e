//! Designs with faults of two kinds that are neighbours in the order of the refusals. Where one of the two is that the
//! design is too large, `limits` has them.

use crate::refusing::{Row, first_wrong};
use eq_elab::ElabKind;
use std::test::Fail;

/// The kind that is told, and its name.
static BOTH: [Row; 15] = [
    // a module twice, and no top
    (
        "module m; endmodule module m; endmodule",
        ElabKind::DuplicateModule,
        "m",
    ),
    // no top, and an instance of no module
    ("module m; n u(); endmodule", ElabKind::NoTop, "t"),
    (
        "module t; t u(); m v(); endmodule",
        ElabKind::UnknownModule,
        "m",
    ),
    (
        "module t; wire w, w; t u(); endmodule",
        ElabKind::Recursive,
        "t",
    ),
    (
        "module t; assign y = a; wire w, w; endmodule",
        ElabKind::DuplicateName,
        "w",
    ),
    (
        "module t; wire [1024:0] w; assign y = w; endmodule",
        ElabKind::UnknownName,
        "y",
    ),
    (
        "module t; reg q; assign q = 1'b0; wire [1024:0] w; endmodule",
        ElabKind::BadRange,
        "w",
    ),
    (
        "module t; wire w; reg q; buf g(w); assign q = w; endmodule",
        ElabKind::BadTarget,
        "q",
    ),
    // a connection, and a cost that is too large
    (
        "module t(a, b, y, z); input [1023:0] a, b; output [1023:0] y, z;
         assign y = a >> b, z = a << b; m u(a); endmodule module m; endmodule",
        ElabKind::BadConnection,
        "u",
    ),
    (
        "module t; wire \\u.w ; m u(); endmodule
         module m; wire w; assign w = 1'b0, w = 1'b0; endmodule",
        ElabKind::PathClash,
        "u.w",
    ),
    (
        "module t(y, z); output y, z; assign z = 1'b0, z = 1'b0; endmodule",
        ElabKind::TwoDrivers,
        "z",
    ),
    (
        "module t(c, y); input c; output y; reg q; always @(posedge c) q <= ~q; endmodule",
        ElabKind::Undriven,
        "y",
    ),
    (
        "module t(c, d); input c, d; reg p = 1'b0, q; always @(posedge c) p <= ~p;
         always @(posedge d) q <= ~q; endmodule",
        ElabKind::NoInit,
        "q",
    ),
    (
        "module t(c, d, y); input c, d; output y; reg p = 1'b0, q = 1'b0; assign y = c;
         always @(posedge c) p <= ~p; always @(posedge d) q <= ~q; endmodule",
        ElabKind::TwoClocks,
        "d",
    ),
    (
        "module t(c, y); input c; output y; wire v, w; reg q = 1'b0; assign v = w, w = v, y = c;
         always @(posedge c) q <= ~q; endmodule",
        ElabKind::ClockAsData,
        "y",
    ),
];

#[test]
fn the_first_condition_is_told(rt: HostRuntime) -> Result<(), Fail> {
    assert_eq!(rt; first_wrong(rt.alloc(), &BOTH), None);
    Ok(())
}

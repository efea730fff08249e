//! Refusals of modules, each with two places where there can be two. All of their cases stand in `test_refusals`.

use crate::refusing::{Row, first_wrong};
use eq_elab::ElabKind;
use std::test::Fail;

/// Names of modules, nets and instances.
static MODULES: [Row; 11] = [
    // two modules of one name
    (
        "module t; endmodule module m; endmodule module m; endmodule",
        ElabKind::DuplicateModule,
        "m",
    ),
    (
        "module a; endmodule module b; endmodule module b; endmodule module a; endmodule",
        ElabKind::DuplicateModule,
        "b",
    ),
    // no top
    ("module s; endmodule", ElabKind::NoTop, "t"),
    // no module of this name
    (
        "module t; n u(); m v(); endmodule",
        ElabKind::UnknownModule,
        "n",
    ),
    // a module in itself
    (
        "module t; n u(); m v(); endmodule module m; m u(); endmodule module n; n u(); endmodule",
        ElabKind::Recursive,
        "n",
    ),
    // a name twice in a module
    (
        "module t; wire v, w; reg w, v; endmodule",
        ElabKind::DuplicateName,
        "w",
    ),
    // a name that isn't declared
    (
        "module t(a, b); assign d = c; endmodule",
        ElabKind::UnknownName,
        "a",
    ),
    // a range
    (
        "module t; wire [3:0] w; wire v; assign v = w[4]; wire [1024:0] u; endmodule",
        ElabKind::BadRange,
        "w",
    ),
    // a target
    (
        "module t(a, b); input a, b; assign b = 1'b0, a = 1'b0; endmodule",
        ElabKind::BadTarget,
        "b",
    ),
    // a connection
    (
        "module t(a); input a; m v(a), u(a); endmodule module m; endmodule",
        ElabKind::BadConnection,
        "v",
    ),
    // of the first module that is visited
    (
        "module m(a); input a; reg a; endmodule module t; m u(); reg q; assign q = 1'b0; endmodule",
        ElabKind::BadTarget,
        "q",
    ),
];

#[test]
fn modules_are_refused(rt: HostRuntime) -> Result<(), Fail> {
    assert_eq!(rt; first_wrong(rt.alloc(), &MODULES), None);
    Ok(())
}

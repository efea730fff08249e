//! Instances and gates whose connections and terminals don't fit.

use crate::reading::{Row, first_wrong};
use eq_verilog::ElabKind;
use std::test::Fail;

static ROWS: [Row; 17] = [
    // by order too few or too many
    (
        "module t(a); input a; m u(a); endmodule module m(i, j); input i, j; endmodule",
        "u",
    ),
    (
        "module t(a); input a; m u(a, a); endmodule module m(i); input i; endmodule",
        "u",
    ),
    ("module t; m u(,); endmodule module m; endmodule", "u"),
    // by name unknown, also where nothing is connected
    (
        "module t(a); input a; m u(.i(a), .z(a)); endmodule module m(i); input i; endmodule",
        "u",
    ),
    (
        "module t; m u(.w()); endmodule module m; wire w; endmodule",
        "u",
    ),
    // by name twice
    (
        "module t(a); input a; m u(.i(a), .j(a), .i()); endmodule module m(i, j); input i, j; endmodule",
        "u",
    ),
    // one terminal
    ("module t(y); output y; and g(y); endmodule", "g"),
    ("module t(a); input a; buf g(a); endmodule", "g"),
    // a terminal of two bits
    (
        "module t(a, y); input [1:0] a; output y; or g(y, y, a); endmodule",
        "g",
    ),
    (
        "module t(a, y); input a; output [1:0] y; not g(y, a); endmodule",
        "g",
    ),
    (
        "module t(a, y); input a; output y; xor g(y, {a, a}, a); endmodule",
        "g",
    ),
    // gates without a name
    ("module t(y); output y; buf (y, 2'h0); endmodule", "t"),
    (
        "module t; m u(); endmodule module m(y); output y; nand (y); endmodule",
        "m",
    ),
    // the first of an item, and of a module
    (
        "module t(y); output y; buf f(y, y), g(y, y), h(y), k(y); endmodule",
        "h",
    ),
    (
        "module t(y); output y; m u(), v(.y(y)); buf g(y); endmodule module m; endmodule",
        "v",
    ),
    // the first module that is visited
    (
        "module m(y); output y; buf g(y); endmodule module t(y); output y; m u(); buf h(y); endmodule",
        "h",
    ),
    (
        "module m(y); output y; buf g(y); endmodule module t; n u(); m v(); endmodule
      module n(y); output y; buf h(y); endmodule",
        "h",
    ),
];

#[test]
fn connections_and_terminals_that_do_not_fit_are_refused(rt: HostRuntime) -> Result<(), Fail> {
    let wrong = first_wrong(rt.alloc(), ElabKind::BadConnection, &ROWS)?;
    assert_eq!(rt; wrong, None);
    Ok(())
}

//! Designs with faults of two kinds. The one that is told stands later in the text, or in a module that is visited
//! later.

use crate::reading::is_refused;
use eq_verilog::ElabKind;
use std::alloc::Global;
use std::test::Fail;

/// A text, and the kind and the name of its refusal.
type Row = (&'static str, ElabKind, &'static str);

static ROWS: [Row; 17] = [
    // before NoTop
    (
        "module m; endmodule module m; endmodule",
        ElabKind::DuplicateModule,
        "m",
    ),
    // before UnknownModule
    ("module m; n u(); endmodule", ElabKind::NoTop, "t"),
    // before Recursive
    (
        "module t; t u(); m v(); endmodule",
        ElabKind::UnknownModule,
        "m",
    ),
    (
        "module t; m u(); t v(); endmodule module m; n u(); endmodule",
        ElabKind::UnknownModule,
        "n",
    ),
    // before DuplicateName
    (
        "module t(a, a); wire w, w; t u(); endmodule",
        ElabKind::Recursive,
        "t",
    ),
    (
        "module t; wire w, w; m u(); endmodule module m; m u(); endmodule",
        ElabKind::Recursive,
        "m",
    ),
    // before UnknownName
    (
        "module t(b); assign y = a; wire w, w; endmodule",
        ElabKind::DuplicateName,
        "w",
    ),
    (
        "module t(b); m u(); endmodule module m(a, a); input a; endmodule",
        ElabKind::DuplicateName,
        "a",
    ),
    // before BadRange
    (
        "module t; wire [1024:0] w; assign y = {0{w}}; endmodule",
        ElabKind::UnknownName,
        "y",
    ),
    (
        "module t; wire [1024:0] w; m u(); endmodule module m(a); endmodule",
        ElabKind::UnknownName,
        "a",
    ),
    // before BadTarget
    (
        "module t; reg q; assign q = 1'b0; wire [1024:0] w; endmodule",
        ElabKind::BadRange,
        "w",
    ),
    (
        "module t(a); input a; reg a; m u(); endmodule module m; wire w; buf (w, w[0]); endmodule",
        ElabKind::BadRange,
        "w",
    ),
    // before BadConnection
    (
        "module t; wire w; reg q; buf g(w); assign q = w; endmodule",
        ElabKind::BadTarget,
        "q",
    ),
    (
        "module t; m u(,,,); endmodule module m(a); input a; reg a; endmodule",
        ElabKind::BadTarget,
        "a",
    ),
    // in one item
    (
        "module t; reg [1:0] q; and g(q); endmodule",
        ElabKind::BadTarget,
        "q",
    ),
    (
        "module t; reg q; m u(q, q); endmodule module m(o); output o; endmodule",
        ElabKind::BadTarget,
        "q",
    ),
    // the first and the last of all
    (
        "module t; wire w; buf g(w); endmodule module m; endmodule module m; endmodule",
        ElabKind::DuplicateModule,
        "m",
    ),
];

/// The first row that isn't right.
fn first_wrong(alloc: Global) -> Result<Option<usize>, Fail> {
    for (place, row) in ROWS.iter().enumerate() {
        if !is_refused(alloc, &[row.0], row.1, row.2)? {
            return Ok(Some(place));
        }
    }
    Ok(None)
}

#[test]
fn the_earlier_kind_is_told(rt: HostRuntime) -> Result<(), Fail> {
    assert_eq!(rt; first_wrong(rt.alloc())?, None);
    Ok(())
}

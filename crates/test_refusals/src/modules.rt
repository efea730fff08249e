//! Modules that are there twice or not at all, or that contain themselves.

use crate::reading::{Row, first_wrong, is_refused};
use eq_verilog::ElabKind;
use std::test::Fail;

static TWICE: [Row; 5] = [
    ("module t; endmodule module t; endmodule", "t"),
    // not reached
    (
        "module m; endmodule module t; endmodule module m; endmodule",
        "m",
    ),
    // names that differ in case are two
    (
        "module t; endmodule module M; endmodule module m; endmodule module M; endmodule",
        "M",
    ),
    // the first that comes again
    (
        "module a; endmodule module t; endmodule module b; endmodule module b; endmodule
      module a; endmodule",
        "b",
    ),
    // the first of them is reached
    (
        "module t; m u(); endmodule module m; wire w, w; endmodule module m; endmodule",
        "m",
    ),
];

static NO_TOP: [Row; 3] = [
    ("", "t"),
    ("module m; endmodule module T; endmodule", "t"),
    ("module m; t u(); endmodule", "t"),
];

static UNKNOWN: [Row; 7] = [
    ("module t; m u(); endmodule", "m"),
    ("module n; endmodule module t; N u(); endmodule", "N"),
    ("module t; m u(); endmodule module m; n v(); endmodule", "n"),
    // a gate or a net isn't a module
    ("module t; wire m; m u(); endmodule", "m"),
    // the first of a module
    ("module t; n u(), v(); m w(); endmodule", "n"),
    // the first module that is visited, wherever it stands
    (
        "module m; n u(); endmodule module t; m u(); k v(); endmodule",
        "k",
    ),
    (
        "module p; x u(); endmodule module m; y u(); endmodule module t; m u(); p v(); endmodule",
        "y",
    ),
];

static RECURSIVE: [Row; 8] = [
    ("module t; t u(); endmodule", "t"),
    ("module t; m u(); endmodule module m; m u(); endmodule", "m"),
    ("module t; m u(); endmodule module m; t u(); endmodule", "t"),
    (
        "module t; m u(); endmodule module m; n u(); endmodule module n; t u(); endmodule",
        "t",
    ),
    // below the top
    (
        "module n; m u(); endmodule module m; n u(); endmodule module t; m u(); endmodule",
        "m",
    ),
    // the first module that is visited
    (
        "module n; n u(); endmodule module m; m u(); endmodule module t; m u(); n v(); endmodule",
        "m",
    ),
    (
        "module n; n u(); endmodule module m; m u(); n v(); endmodule module t; n u(); m v(); endmodule",
        "n",
    ),
    // in the second of two instances
    (
        "module t; n u(); m v(); endmodule module n; endmodule module m; n u(); t v(); endmodule",
        "t",
    ),
];

#[test]
fn modules_of_one_name_are_refused(rt: HostRuntime) -> Result<(), Fail> {
    let wrong = first_wrong(rt.alloc(), ElabKind::DuplicateModule, &TWICE)?;
    assert_eq!(rt; wrong, None);
    Ok(())
}

#[test]
fn modules_of_one_name_in_two_sources_are_refused(rt: HostRuntime) -> Result<(), Fail> {
    let texts = [
        "module m; endmodule module n; endmodule",
        "module t; endmodule module n; endmodule module m; endmodule",
    ];
    let told = is_refused(rt.alloc(), &texts, ElabKind::DuplicateModule, "n")?;
    assert_eq!(rt; told, true);
    Ok(())
}

#[test]
fn a_top_that_is_not_there_is_refused(rt: HostRuntime) -> Result<(), Fail> {
    let wrong = first_wrong(rt.alloc(), ElabKind::NoTop, &NO_TOP)?;
    assert_eq!(rt; wrong, None);
    Ok(())
}

#[test]
fn instances_of_no_module_are_refused(rt: HostRuntime) -> Result<(), Fail> {
    let wrong = first_wrong(rt.alloc(), ElabKind::UnknownModule, &UNKNOWN)?;
    assert_eq!(rt; wrong, None);
    Ok(())
}

#[test]
fn modules_in_themselves_are_refused(rt: HostRuntime) -> Result<(), Fail> {
    let wrong = first_wrong(rt.alloc(), ElabKind::Recursive, &RECURSIVE)?;
    assert_eq!(rt; wrong, None);
    Ok(())
}

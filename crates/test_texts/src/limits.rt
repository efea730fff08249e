//! The limits of trees: marks in an expression or a target, and levels of statements.

use crate::reading::{joined, reading, times};
use std::alloc::Global;
use std::test::Fail;

/// What stands first in a module, and what stands last.
type Frame = (&'static str, &'static str);

const ASSIGNED: Frame = ("assign y = ", "; endmodule");

const NEGATED: Frame = ("assign y = ~", "; endmodule");

const WIRED: Frame = ("wire v = ", "a; endmodule");

const DRIVEN: Frame = ("assign ", " = b; endmodule");

const INITIAL: Frame = ("initial ", " = 1'h0; endmodule");

const CLOCKED: Frame = ("always @(posedge c) ", " endmodule");

/// What stands so often in a frame, what stands behind it, and what again as often; and how the tree or the refusal begins.
type Deep = (
    Frame,
    &'static str,
    usize,
    &'static str,
    &'static str,
    &'static str,
);

static DEEP: [Deep; 31] = [
    (ASSIGNED, "~", 1000, "a", "", "[m() (Assign y (Not "),
    (ASSIGNED, "~", 1001, "a", "", "too deep 1006"),
    (
        WIRED,
        "~",
        1000,
        "a, w = ",
        "~",
        "[m() (Wire v) (Assign v (Not ",
    ),
    (DRIVEN, "{", 1000, "a", "}", "[m() (Assign { { "),
    (DRIVEN, "{", 1001, "a", "}", "too deep 1004"),
    (INITIAL, "{", 1001, "a", "}", "too deep 1004"),
    (
        CLOCKED,
        "begin ",
        200,
        ";",
        " end",
        "[m() (Always c (begin (begin ",
    ),
    (CLOCKED, "begin ", 201, ";", " end", "too deep 210"),
    (
        CLOCKED,
        "begin ",
        201,
        "",
        " end",
        "[m() (Always c (begin (begin ",
    ),
    (ASSIGNED, "~", 1000, "a", "", "[m() (Assign y "),
    (NEGATED, "~", 1000, "a", "", "too deep 1006"),
    (ASSIGNED, "(", 1000, "a", ")", "[m() (Assign y "),
    (NEGATED, "(", 1000, "a", ")", "too deep 1006"),
    (ASSIGNED, "a&", 1000, "a", "", "[m() (Assign y "),
    (NEGATED, "a&", 1000, "a", "", "too deep 2006"),
    (ASSIGNED, "{", 1000, "a", "}", "[m() (Assign y "),
    (NEGATED, "{", 1000, "a", "}", "too deep 1006"),
    (ASSIGNED, "{2{", 500, "a", "}}", "[m() (Assign y "),
    (NEGATED, "{2{", 500, "a", "}}", "too deep 1506"),
    (ASSIGNED, "a?b:", 1000, "a", "", "[m() (Assign y "),
    (NEGATED, "a?b:", 1000, "a", "", "too deep 4004"),
    (DRIVEN, "{", 1000, "a", "}", "[m() (Assign { { "),
    (DRIVEN, "{", 1001, "a", "}", "too deep 1004"),
    (DRIVEN, "{a,", 1000, "{", "", "too deep 3004"),
    (
        CLOCKED,
        "begin ",
        200,
        ";",
        " end",
        "[m() (Always c (begin ",
    ),
    (CLOCKED, "begin ", 201, "", " end", "[m() (Always c (begin "),
    (CLOCKED, "begin ", 201, "; a", " end", "too deep 210"),
    (CLOCKED, "begin ", 201, "wire", " end", "syntax 210"),
    (CLOCKED, "if (a) ", 200, ";", "", "[m() (Always c (if a "),
    (CLOCKED, "if (a) ", 201, ";", "", "too deep 813"),
    (
        CLOCKED,
        "if (a) ; else ",
        201,
        "{b} <= c;",
        "",
        "too deep 1213",
    ),
];

/// What is read of a module.
fn found(alloc: Global, deep: &Deep) -> Result<String, Fail> {
    let ((first, last), before, count, middle, behind, _) = *deep;
    let before = times(alloc, before, count)?;
    let behind = times(alloc, behind, count)?;
    let text = joined(
        alloc,
        &["module m; ", first, &before, middle, &behind, last],
    )?;
    reading(alloc, &text)
}

/// Whether a module is read as wanted.
fn is_read(alloc: Global, deep: &Deep) -> Result<bool, Fail> {
    Ok(found(alloc, deep)?.starts_with(deep.5))
}

/// The first module that isn't read as wanted.
fn first_wrong(alloc: Global) -> Result<Option<usize>, Fail> {
    for (row, deep) in DEEP.iter().enumerate() {
        if !is_read(alloc, deep)? {
            return Ok(Some(row));
        }
    }
    Ok(None)
}

#[test]
fn sources_have_at_most_so_many_marks_and_levels(rt: HostRuntime) -> Result<(), Fail> {
    assert_eq!(rt; first_wrong(rt.alloc())?, None);
    Ok(())
}

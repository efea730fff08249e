//! Expressions, targets and statements, each in a module that has nothing else, and their trees or refusals.

use crate::reading::{Row, first_wrong};
use std::test::Fail;

/// An expression, and its tree.
static EXPRESSIONS: [Row; 33] = [
    ("a", "a"),
    ("4'd9", "4'9"),
    ("a[3]", "a.3"),
    ("a[3:1] + 1'b1", "(Add a.3.1 1'1)"),
    ("a - b - c", "(Sub (Sub a b) c)"),
    ("a + b << c", "(Shl (Add a b) c)"),
    ("a << b + c", "(Shl a (Add b c))"),
    ("a < b >> c", "(Lt a (Shr b c))"),
    ("a == b <= c", "(Eq a (Le b c))"),
    ("a === b !== c", "(Ne (Eq a b) c)"),
    ("a & b == c", "(And a (Eq b c))"),
    ("a ^ b & c", "(Xor a (And b c))"),
    ("a | b ~^ c ^~ d", "(Or a (Xnor (Xnor b c) d))"),
    ("a && b | c", "(LogAnd a (Or b c))"),
    ("a || b && c", "(LogOr a (LogAnd b c))"),
    ("a || b ? c : d", "(? (LogOr a b) c d)"),
    ("a ? b : c ? d : e", "(? a b (? c d e))"),
    ("a ? b ? c : d : e", "(? a (? b c d) e)"),
    ("a ? b : c + d ? e : f", "(? a b (? (Add c d) e f))"),
    ("(a ? b : c) ? d : e", "(? (? a b c) d e)"),
    ("- ~ ! a", "(Neg (Not (LogNot a)))"),
    ("~a & ~b", "(And (Not a) (Not b))"),
    (
        "~&a | ~|b ~^ ^~c",
        "(Or (RedNand a) (Xnor (RedNor b) (RedXnor c)))",
    ),
    ("a & &b", "(And a (RedAnd b))"),
    ("a | |b ^ ^c", "(Or a (Xor (RedOr b) (RedXor c)))"),
    ("a - -b", "(Sub a (Neg b))"),
    ("-(a + b)", "(Neg (Add a b))"),
    ("a - (b - c)", "(Sub a (Sub b c))"),
    ("{a}", "{ a}"),
    ("{a, b + c, {d}}", "{ a (Add b c) { d}}"),
    ("{2{a}}", "{2 a}"),
    ("{2{a, b}} + c", "(Add {2 a b} c)"),
    ("{{2{a}}, b}", "{ {2 a} b}"),
];

/// No expression, and the token at which the reading stops. Six stand before it.
static NO_EXPRESSIONS: [Row; 23] = [
    ("{2{{3{a}}}, b}", "syntax 16"),
    ("a ? b", "syntax 9"),
    ("a ? b;", "syntax 9"),
    ("a ? b)", "syntax 9"),
    ("(a;", "syntax 8"),
    ("(a, b)", "syntax 8"),
    ("{a)", "syntax 8"),
    ("{a : b}", "syntax 8"),
    ("{}", "syntax 7"),
    ("{a,}", "syntax 9"),
    ("{2 a}", "syntax 8"),
    ("{2{a};", "syntax 11"),
    ("a[b]", "syntax 8"),
    ("a[3", "syntax 9"),
    ("a[3:]", "syntax 10"),
    ("a[3:1;", "syntax 11"),
    ("3", "syntax 6"),
    ("", "syntax 6"),
    ("a + ) b", "syntax 8"),
    ("a b", "syntax 7"),
    ("a)", "syntax 7"),
    ("a : b", "syntax 7"),
    ("a }", "syntax 7"),
];

/// A target, and its tree.
static TARGETS: [Row; 5] = [
    ("a", "a"),
    ("a[3]", "a.3"),
    ("{a, b[2]}", "{ a b.2}"),
    ("a[3:1]", "a.3.1"),
    ("{a, {b, {c[1:0]}}, d}", "{ a { b { c.1.0}} d}"),
];

/// No target, and the token at which the reading stops. Four stand before it.
static NO_TARGETS: [Row; 17] = [
    ("", "syntax 4"),
    ("3", "syntax 4"),
    ("{}", "syntax 5"),
    ("{a", "syntax 6"),
    ("{a,}", "syntax 7"),
    ("{a;", "syntax 6"),
    ("{a,,b}", "syntax 7"),
    ("{{a} b}", "syntax 8"),
    ("a[", "syntax 6"),
    ("a[b]", "syntax 6"),
    ("a[3", "syntax 7"),
    ("a[3;", "syntax 7"),
    ("a[3:]", "syntax 8"),
    ("a[3:1;", "syntax 9"),
    ("(a)", "syntax 4"),
    ("a <= b", "syntax 5"),
    ("{a, {b, {c[1:0]}}, d}, e", "syntax 22"),
];

/// A statement, and its tree.
static STATEMENTS: [Row; 8] = [
    (";", ";"),
    ("{a, b[1]} <= c + 1'b1;", "({ a b.1} <= (Add c 1'1))"),
    ("begin end", "(begin)"),
    (
        "if (a) if (b) ; else c <= d;",
        "(if a (if b ; else (c <= d)))",
    ),
    (
        "if (a) if (b) ; else ; else c <= d;",
        "(if a (if b ; else ;) else (c <= d))",
    ),
    (
        "if (a) begin if (b) ; end else c <= d;",
        "(if a (begin (if b ;)) else (c <= d))",
    ),
    (
        "begin a <= b; ; begin end end",
        "(begin (a <= b) ; (begin))",
    ),
    ("if (a) ; else b <= c;", "(if a ; else (b <= c))"),
];

/// No statement, and the token at which the reading stops. Nine stand before it.
static NO_STATEMENTS: [Row; 18] = [
    ("", "syntax 9"),
    ("end", "syntax 9"),
    ("else", "syntax 9"),
    ("a", "syntax 10"),
    ("a = b;", "syntax 10"),
    ("a <= b", "syntax 12"),
    ("a <= b)", "syntax 12"),
    ("a <= ;", "syntax 11"),
    ("begin", "syntax 10"),
    ("begin a <= b; wire", "syntax 14"),
    ("begin ; else", "syntax 11"),
    ("if a", "syntax 10"),
    ("if (a;", "syntax 12"),
    ("if (a)", "syntax 13"),
    ("if (a) end", "syntax 13"),
    ("if (a) ; else end", "syntax 15"),
    ("begin a <= b; ; begin end end ;", "syntax 18"),
    ("if (a) ; else b <= c; else", "syntax 19"),
];

const ASSIGNED: [&str; 2] = ["module m; assign y = ", "; endmodule"];

const DRIVEN: [&str; 2] = ["module m; assign ", " = x; endmodule"];

const CLOCKED: [&str; 2] = ["module m; always @(posedge c) ", " endmodule"];

const WHOLE: [&str; 2] = ["", ""];

#[test]
fn expressions_have_their_trees(rt: HostRuntime) -> Result<(), Fail> {
    let tree = ["[m() (Assign y ", ")]"];
    assert_eq!(rt;
        first_wrong(rt.alloc(), &EXPRESSIONS, &ASSIGNED, &tree)?,
        None
    );
    assert_eq!(rt;
        first_wrong(rt.alloc(), &NO_EXPRESSIONS, &ASSIGNED, &WHOLE)?,
        None
    );
    Ok(())
}

#[test]
fn targets_have_their_trees(rt: HostRuntime) -> Result<(), Fail> {
    let tree = ["[m() (Assign ", " x)]"];
    assert_eq!(rt; first_wrong(rt.alloc(), &TARGETS, &DRIVEN, &tree)?, None);
    assert_eq!(rt;
        first_wrong(rt.alloc(), &NO_TARGETS, &DRIVEN, &WHOLE)?,
        None
    );
    Ok(())
}

#[test]
fn statements_have_their_trees(rt: HostRuntime) -> Result<(), Fail> {
    let tree = ["[m() (Always c ", ")]"];
    assert_eq!(rt;
        first_wrong(rt.alloc(), &STATEMENTS, &CLOCKED, &tree)?,
        None
    );
    assert_eq!(rt;
        first_wrong(rt.alloc(), &NO_STATEMENTS, &CLOCKED, &WHOLE)?,
        None
    );
    Ok(())
}

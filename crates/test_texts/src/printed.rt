//! Expressions, and how they are printed.

use crate::reading::{between, tree_of};
use eq_base::Bytes;
use eq_vparse::print_source;
use std::alloc::Global;
use std::test::Fail;

/// Expressions, and how they are printed: each operand with an operator in parentheses.
static PRINTED: [(&str, &str); 58] = [
    ("~a", "~a"),
    ("!a", "!a"),
    ("-a", "-a"),
    ("&a", "&a"),
    ("~&a", "~&a"),
    ("|a", "|a"),
    ("~|a", "~|a"),
    ("^a", "^a"),
    ("~^a", "~^a"),
    ("^~a", "~^a"),
    ("~ ! - a", "~(!(-a))"),
    ("& ~ | a", "&(~(|a))"),
    ("-(a + b)", "-(a+b)"),
    ("!(a ? b : c)", "!(a?b:c)"),
    ("a + b - c", "(a+b)-c"),
    ("a - b + c", "(a-b)+c"),
    ("a - (b - c)", "a-(b-c)"),
    ("a << b >> c", "(a<<b)>>c"),
    ("a >> b << c", "(a>>b)<<c"),
    ("a < b <= c", "(a<b)<=c"),
    ("a >= b > c", "(a>=b)>c"),
    ("a == b != c", "(a==b)!=c"),
    ("a !== b === c", "(a!=b)==c"),
    ("a & b & c", "(a&b)&c"),
    ("a ^ b ~^ c ^~ d", "((a^b)~^c)~^d"),
    ("a | b | c", "(a|b)|c"),
    ("a && b && c", "(a&&b)&&c"),
    ("a || b || c", "(a||b)||c"),
    ("a + b << c", "(a+b)<<c"),
    ("a << b + c", "a<<(b+c)"),
    ("a << b < c", "(a<<b)<c"),
    ("a < b << c", "a<(b<<c)"),
    ("a > b == c", "(a>b)==c"),
    ("a == b > c", "a==(b>c)"),
    ("a == b & c", "(a==b)&c"),
    ("a & b == c", "a&(b==c)"),
    ("a & b ^ c", "(a&b)^c"),
    ("a ^ b & c", "a^(b&c)"),
    ("a ^ b | c", "(a^b)|c"),
    ("a | b ^ c", "a|(b^c)"),
    ("a | b && c", "(a|b)&&c"),
    ("a && b | c", "a&&(b|c)"),
    ("a && b || c", "(a&&b)||c"),
    ("a || b && c", "a||(b&&c)"),
    ("a || b ? c : d", "(a||b)?c:d"),
    ("a ? b : c || d", "a?b:(c||d)"),
    ("a ? b : c ? d : e", "a?b:(c?d:e)"),
    ("a ? b ? c : d : e", "a?(b?c:d):e"),
    ("(a ? b : c) ? d : e", "(a?b:c)?d:e"),
    ("~a + ~b", "(~a)+(~b)"),
    ("a & &b", "a&(&b)"),
    ("4'b0101 + 8'd12", "4'h5+8'hc"),
    ("1'h1 ? 4'hA : 4'o00", "(1'h1)?4'ha:4'h0"),
    ("(a) + ((b))", "a+b"),
    ("{a + b, ~c}", "{a+b,~c}"),
    ("{2{a + b}}", "{2{a+b}}"),
    ("\\a+b + \\and ", "\\a+b +\\and "),
    ("a[3] + a[3:0]", "a[3]+a[3:0]"),
];

/// What is printed of a module with one assignment.
fn printed(alloc: Global, expr: &str) -> Result<Bytes, Fail> {
    let text = between(alloc, "module t; assign y = ", expr, "; endmodule")?;
    let tree = tree_of(alloc, text.as_bytes())??;
    Ok(print_source(alloc, &tree)?)
}

/// Whether an expression is printed so.
fn is_printed_so(alloc: Global, expr: &str, wanted: &str) -> Result<bool, Fail> {
    let wanted = between(alloc, "module t();\nassign y=", wanted, ";\nendmodule\n")?;
    Ok(printed(alloc, expr)?.as_slice() == wanted.as_bytes())
}

/// The first expression that isn't printed so.
fn first_other(alloc: Global) -> Result<Option<usize>, Fail> {
    for (row, (expr, wanted)) in PRINTED.iter().enumerate() {
        if !is_printed_so(alloc, expr, wanted)? {
            return Ok(Some(row));
        }
    }
    Ok(None)
}

#[test]
fn operands_have_their_parentheses(rt: HostRuntime) -> Result<(), Fail> {
    assert_eq!(rt; first_other(rt.alloc())?, None);
    Ok(())
}

//! Expressions of the first form.

use crate::first_designs::is_taken;
use crate::reading::{joined, times};
use eq_first::{Expr, Module, read_module};
use std::alloc::{AllocError, Global};
use std::test::Fail;

/// What stands so often before and behind an input has one mark.
static MARKS: [(&str, &str); 3] = [("~", ""), ("a&", ""), ("(", ")")];

/// Whether each expression of so many marks is taken, or none.
fn marks_are_taken(alloc: Global, count: usize, taken: bool) -> Result<bool, AllocError> {
    for (before, behind) in MARKS {
        let before = times(alloc, before, count)?;
        let behind = times(alloc, behind, count)?;
        let parts = [
            "module t(input a,output y);assign y=",
            &before,
            "a",
            &behind,
            ";endmodule",
        ];
        let text = joined(alloc, &parts)?;
        if is_taken(alloc, text.as_bytes())? != taken {
            return Ok(false);
        }
    }
    Ok(true)
}

#[test]
fn an_expression_of_the_first_form_has_at_most_1000_marks(rt: HostRuntime) -> Result<(), Fail> {
    assert!(rt; marks_are_taken(rt.alloc(), 1000, true)?);
    assert!(rt; marks_are_taken(rt.alloc(), 1001, false)?);
    Ok(())
}

/// The expression with all its parentheses, and ports as `0` to `9`.
fn shape(text: &mut String, expr: &Expr) -> Result<(), AllocError> {
    match expr {
        Expr::Port(n) => text.push(char::from(b'0' + (*n % 10) as u8)),
        Expr::Not(a) => {
            text.push('~')?;
            shape(text, a.get())
        }
        Expr::And(a, b) => {
            text.push('(')?;
            shape(text, a.get())?;
            text.push('&')?;
            shape(text, b.get())?;
            text.push(')')
        }
        Expr::Xor(a, b) => {
            text.push('(')?;
            shape(text, a.get())?;
            text.push('^')?;
            shape(text, b.get())?;
            text.push(')')
        }
        Expr::Or(a, b) => {
            text.push('(')?;
            shape(text, a.get())?;
            text.push('|')?;
            shape(text, b.get())?;
            text.push(')')
        }
    }
}

/// An expression, and its tree.
static TREE_CASES: [(&str, &str); 12] = [
    ("a", "0"),
    ("~a", "~0"),
    ("a & b & c", "((0&1)&2)"),
    ("a ^ b ^ c", "((0^1)^2)"),
    ("a | b | c", "((0|1)|2)"),
    ("a & (b & c)", "(0&(1&2))"),
    ("a | b ^ c & a", "(0|(1^(2&0)))"),
    ("a & b ^ c | a", "(((0&1)^2)|0)"),
    ("a ^ b | c ^ a", "((0^1)|(2^0))"),
    ("~a & ~~b", "(~0&~~1)"),
    ("~(a | b) & c", "(~(0|1)&2)"),
    ("((a)) ^ ((b | c))", "(0^(1|2))"),
];

/// Whether a design has the ports that were written, and this tree.
fn has_tree(alloc: Global, module: &Module, tree: &str) -> Result<bool, AllocError> {
    let mut found = String::new(alloc);
    shape(&mut found, &module.expr)?;
    Ok(module.output == 3 && module.ports.len() == 4 && found.as_str() == tree)
}

/// Whether an expression of three inputs has this tree.
fn is_tree(alloc: Global, expr: &str, tree: &str) -> Result<bool, AllocError> {
    let before = "module t(input a, input b, input c, output y); assign y = ";
    let text = joined(alloc, &[before, expr, "; endmodule"])?;
    match read_module(alloc, text.as_bytes(), b"t")? {
        Some(module) => has_tree(alloc, &module, tree),
        None => Ok(false),
    }
}

#[test]
fn expressions_of_the_first_form_have_their_trees(rt: HostRuntime) -> Result<(), Fail> {
    for (expr, tree) in TREE_CASES {
        assert!(rt; is_tree(rt.alloc(), expr, tree)?, "of {expr}");
    }
    Ok(())
}

//! Names that are used and not declared.

ghost use Rattle.std.specs.Prelude.{◌≡◌, map, option_copied};
ghost use Rattle.eq_verilog.specs.Trees.{module_tree, expr_tree, target_tree, join_all};
ghost use Rattle.eq_analysis.specs.inner.Mentioning.{first_name, undeclared};

use crate::tables::Table;
use eq_names::Name;
use eq_vparse::{Expr, Target};

/// The name, where it isn't declared.
fn in_name<'a>(table: &Table, name: &'a Name) -> Option<&'a Name>
    ensures { option_copied result ≡ undeclared (module_tree table.now.within.now) name.now }
{
    if table.is_declared(name) {
        None
    } else {
        Some(name)
    }
}

/// The first name of a target that isn't declared.
#[cycle(targets)]
pub fn undeclared_in_target<'a>(table: &Table, target: &'a Target) -> Option<&'a Name>
    ensures { option_copied result ≡ first_name (undeclared (module_tree table.now.within.now))
        (target_tree target.now) }
{
    match target {
        Target::Net(name) => in_name(table, name),
        Target::Bit(name, _) => in_name(table, name),
        Target::Part(name, _, _) => in_name(table, name),
        Target::Concat(parts) => undeclared_in_targets(table, parts.as_slice()),
    }
}

/// The first name of targets that isn't declared.
#[cycle(targets)]
fn undeclared_in_targets<'a>(table: &Table, parts: &'a [Target]) -> Option<&'a Name>
    ensures { option_copied result ≡ first_name (undeclared (module_tree table.now.within.now))
        (join_all (map target_tree parts.now)) }
{
    for part in parts {
        if let Some(name) = undeclared_in_target(table, part) {
            return Some(name);
        }
    }
    None
}

/// The first name of an expression that isn't declared.
#[cycle(exprs)]
pub fn undeclared_in_expr<'a>(table: &Table, expr: &'a Expr) -> Option<&'a Name>
    ensures { option_copied result ≡ first_name (undeclared (module_tree table.now.within.now))
        (expr_tree expr.now) }
{
    match expr {
        Expr::Const(_) => None,
        Expr::Net(name) => in_name(table, name),
        Expr::Bit(name, _) => in_name(table, name),
        Expr::Part(name, _, _) => in_name(table, name),
        Expr::Concat(parts) => undeclared_in_exprs(table, parts.as_slice()),
        Expr::Repeat(_, parts) => undeclared_in_exprs(table, parts.as_slice()),
        Expr::Unary(_, a) => undeclared_in_expr(table, a.get()),
        Expr::Binary(_, a, b) => match undeclared_in_expr(table, a.get()) {
            Some(name) => Some(name),
            None => undeclared_in_expr(table, b.get()),
        },
        Expr::Cond(c, a, b) => match undeclared_in_expr(table, c.get()) {
            Some(name) => Some(name),
            None => match undeclared_in_expr(table, a.get()) {
                Some(name) => Some(name),
                None => undeclared_in_expr(table, b.get()),
            },
        },
    }
}

/// The first name of the parts of a concatenation that isn't declared.
#[cycle(exprs)]
fn undeclared_in_exprs<'a>(table: &Table, parts: &'a [Expr]) -> Option<&'a Name>
    ensures { option_copied result ≡ first_name (undeclared (module_tree table.now.within.now))
        (join_all (map expr_tree parts.now)) }
{
    for part in parts {
        if let Some(name) = undeclared_in_expr(table, part) {
            return Some(name);
        }
    }
    None
}

//! What expressions cost, in one walk.

ghost use Rattle.std.specs.Prelude.{◌≡◌, ℕ, map};
ghost use Rattle.eq_verilog.specs.Trees as tree;
ghost use Rattle.eq_verilog.specs.Trees.{expr_tree, join_all};
ghost use Rattle.eq_verilog.specs.Scopes.{Scope};
ghost use Rattle.eq_verilog.specs.Nets.{module_scope};
ghost use Rattle.eq_verilog.specs.Costs as spec;
ghost use Rattle.eq_analysis.specs.Tabling.{tree_at};
ghost use Rattle.eq_cost.specs.Counts.{told};
ghost use Rattle.eq_cost.specs.inner.Lines.{IsCosted};

use crate::counting::sum;
use crate::forms::{Costed, costed_binary, costed_choice, costed_repeat, costed_unary, leaf};
use crate::lines::{at, flat};
use eq_analysis::{Table, bits_of};
use eq_names::Name;
use eq_verilog::laws::expression_trees;
use eq_vlex::Constant;
use eq_vparse::Expr;

fn costed_const(constant: Constant) -> Costed
    ensures { (s : Scope) → IsCosted s (tree.const constant) result }
{
    leaf(u64::from(constant.size))
}

fn costed_net(table: &Table, name: &Name) -> Costed
    ensures { IsCosted (module_scope (tree_at table.now)) (tree.net name.now) result }
{
    leaf(bits_of(table.range(name)))
}

fn costed_bit() -> Costed
    ensures { (s : Scope) (n : tree.Name) (i : ℕ) → IsCosted s (tree.bit n i) result }
{
    leaf(1)
}

fn costed_part(left: u32, right: u32) -> Costed
    ensures { (s : Scope) (n : tree.Name) → IsCosted s (tree.part n left right) result }
{
    leaf(bits_of(Some((left, right))))
}

/// An expression.
#[cycle(exprs)]
pub fn costed(table: &Table, expr: &Expr) -> Costed
    ensures { IsCosted (module_scope (tree_at table.now)) (expr_tree expr.now) result }
{
    expression_trees();
    match expr {
        Expr::Const(constant) => costed_const(*constant),
        Expr::Net(name) => costed_net(table, name),
        Expr::Bit(_, _) => costed_bit(),
        Expr::Part(_, left, right) => costed_part(*left, *right),
        Expr::Concat(parts) => costed_all(table, parts.as_slice()),
        Expr::Repeat(count, parts) => {
            let part = costed_all(table, parts.as_slice());
            costed_repeat(*count, part)
        }
        Expr::Unary(op, a) => {
            let part = costed(table, a.get());
            costed_unary(*op, part)
        }
        Expr::Binary(op, a, b) => {
            let left = costed(table, a.get());
            let right = costed(table, b.get());
            costed_binary(*op, left, right)
        }
        Expr::Cond(c, a, b) => {
            let test = costed(table, c.get());
            let left = costed(table, a.get());
            let right = costed(table, b.get());
            costed_choice(test, left, right)
        }
    }
}

/// A concatenation.
#[cycle(exprs)]
pub fn costed_all(table: &Table, parts: &[Expr]) -> Costed
    ensures { IsCosted (module_scope (tree_at table.now))
        (join_all (map expr_tree parts.now)) result }
{
    let mut size = 0;
    let mut total = 0;
    for part in parts {
        let next = costed(table, part);
        size = sum(size, next.size);
        total = sum(total, at(next.line, next.size));
    }
    Costed {
        size,
        line: flat(total),
    }
}

/// What a right side of a target of so many bits costs.
pub fn side_cost(table: &Table, expr: &Expr, bits: u64) -> u64
    ensures { (n : ℕ) → told bits ≡ told n → told result ≡
        told (spec.side_cost (module_scope (tree_at table.now)) (expr_tree expr.now) n) }
{
    let side = costed(table, expr);
    at(side.line, bits.max(side.size))
}

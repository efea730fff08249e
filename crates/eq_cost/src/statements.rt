//! What statements cost, as lines in the number of bits that their item sets.

ghost use Rattle.std.specs.Prelude.{◌≡◌, ◌+◌, ◌*◌, ℕ, map};
ghost use Rattle.eq_verilog.specs.Trees.{ExprTree, StmtTree, branch, expr_tree, idle, in_sequence, set, stmt_tree, target_tree};
ghost use Rattle.eq_verilog.specs.Scopes.{Scope};
ghost use Rattle.eq_verilog.specs.Nets.{module_scope};
ghost use Rattle.eq_verilog.specs.Costs.{stmt_cost};
ghost use Rattle.eq_analysis.specs.Tabling.{tree_at};
ghost use Rattle.eq_cost.specs.inner.Lines.{IsLine, IsCosted};

use crate::expressions::{costed, side_cost};
use crate::forms::{Costed, test_line};
use crate::lines::{Line, added, flat};
use crate::target_sizes::target_size;
use eq_analysis::Table;
use eq_verilog::laws::statement_trees;
use eq_vparse::{Expr, Stmt, Target};

fn set_line(table: &Table, target: &Target, expr: &Expr) -> Line
    ensures { IsLine (λ n. stmt_cost (module_scope (tree_at table.now)) n
        (set (target_tree target.now) (expr_tree expr.now))) result }
{
    flat(side_cost(table, expr, target_size(table, target)))
}

fn branch_line(test: Costed, one: Line, other: Line) -> Line
    ensures { (s : Scope) (c : ExprTree) (x y : StmtTree) → IsCosted s c test →
        IsLine (λ n. stmt_cost s n x) one → IsLine (λ n. stmt_cost s n y) other →
        IsLine (λ n. stmt_cost s n (branch c x y)) result }
{
    let branches = added(one, other);
    added(test_line(test), branches)
}

/// The tree of an `if` without `else`. It does nothing, and is called for its clause.
fn without_else(stmt: &Stmt, c: &Expr, a: &Stmt)
    requires { stmt_tree stmt.now ≡ branch (expr_tree c.now) (stmt_tree a.now) idle }
    ensures { stmt_tree stmt.now ≡ branch (expr_tree c.now) (stmt_tree a.now) idle }
{}

/// The tree of an `if` with `else`.
fn with_else(stmt: &Stmt, c: &Expr, a: &Stmt, b: &Stmt)
    requires { stmt_tree stmt.now ≡ branch (expr_tree c.now) (stmt_tree a.now) (stmt_tree b.now) }
    ensures { stmt_tree stmt.now ≡ branch (expr_tree c.now) (stmt_tree a.now) (stmt_tree b.now) }
{}

/// A statement.
#[cycle(stmts)]
pub fn stmt_line(table: &Table, stmt: &Stmt) -> Line
    ensures { IsLine (λ n. stmt_cost (module_scope (tree_at table.now)) n (stmt_tree stmt.now))
        result }
{
    statement_trees();
    match stmt {
        Stmt::Empty => flat(0),
        Stmt::Set(target, expr) => set_line(table, target, expr),
        Stmt::Block(all) => block_line(table, all.as_slice()),
        Stmt::If(c, a, None) => {
            let inner = a.get();
            without_else(stmt, c, inner);
            let test = costed(table, c);
            let one = stmt_line(table, inner);
            branch_line(test, one, flat(0))
        }
        Stmt::If(c, a, Some(b)) => {
            let first = a.get();
            let second = b.get();
            with_else(stmt, c, first, second);
            let test = costed(table, c);
            let one = stmt_line(table, first);
            let other = stmt_line(table, second);
            branch_line(test, one, other)
        }
    }
}

/// Statements in a row.
#[cycle(stmts)]
fn block_line(table: &Table, all: &[Stmt]) -> Line
    ensures { IsLine (λ n. stmt_cost (module_scope (tree_at table.now)) n
        (in_sequence (map stmt_tree all.now))) result }
{
    let mut line = Line { slope: 0, base: 0 };
    for stmt in all {
        line = added(line, stmt_line(table, stmt));
    }
    line
}

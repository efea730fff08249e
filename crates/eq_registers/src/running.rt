//! A statement runs on a table of next values.

ghost use Rattle.std.specs.Prelude.{◌≡◌, ◌+◌, ◌<◌, ◌^◌, OnOk, length, map};
ghost use Rattle.eq_net.specs.Net.{AreWords, bits_of};
ghost use Rattle.eq_net.specs.Tree.{trees_of};
ghost use Rattle.eq_verilog.specs.Trees.{branch, expr_tree, idle, in_sequence, stmt_tree};
ghost use Rattle.eq_analysis.specs.Finding.{scope_of};
ghost use Rattle.eq_flatten.specs.Equating.{AreStarts};
ghost use Rattle.eq_registers.specs.Running.{AllKeys, HasKeys, HasRun, IsStmtReady};
ghost use Rattle.eq_registers.specs.Standing.{AreThere};

use crate::choosing::{add_condition, choose};
use crate::keys::Keys;
use crate::setting::run_set;
use eq_analysis::own;
use eq_base::Memory;
use eq_names::NameTable;
use eq_net::{NetInfo, WordBits, Words};
use eq_verilog::laws::statement_trees;
use eq_vparse::{Expr, Stmt};
use std::alloc::Global;

/// The tree of an `if` without `else`. It does nothing, and is called for its clause.
pub fn without_else(stmt: &Stmt, c: &Expr, a: &Stmt)
    requires { stmt_tree stmt.now ≡ branch (expr_tree c.now) (stmt_tree a.now) idle }
    ensures { stmt_tree stmt.now ≡ branch (expr_tree c.now) (stmt_tree a.now) idle }
{}

/// The tree of an `if` with `else`.
pub fn with_else(stmt: &Stmt, c: &Expr, a: &Stmt, b: &Stmt)
    requires { stmt_tree stmt.now ≡ branch (expr_tree c.now) (stmt_tree a.now) (stmt_tree b.now) }
    ensures { stmt_tree stmt.now ≡ branch (expr_tree c.now) (stmt_tree a.now) (stmt_tree b.now) }
{}

/// Runs a statement: the table, with a place for each of the keys, has then the next values that the statement leaves. An
/// `if` goes through all places, as its cost says.
#[cycle(stmts)]
pub fn run_stmt(
    alloc: Global,
    stmt: &Stmt,
    nets: &[NetInfo],
    names: &NameTable,
    from: u32,
    starts: &[u32],
    keys: &Keys,
    table: &mut WordBits,
    words: &mut Words,
) -> Result<(), Memory>
    requires room { from + length names.now < 2 ^ 32 }
    requires ready { IsStmtReady nets.now names.now from (stmt_tree stmt.now) }
    requires starts { AreStarts nets.now starts.now }
    requires few { bits_of nets.now < 2 ^ 32 }
    requires keys { HasKeys keys.now.bits keys.now.places }
    requires all { AllKeys keys.now.bits (scope_of nets.now names.now from) (stmt_tree stmt.now) }
    requires size { length table.old ≡ length keys.now.bits }
    requires there { AreThere (trees_of words.old) table.old }
    requires words { AreWords nets.now (trees_of words.old) }
    ensures { OnOk result (HasRun nets.now (scope_of nets.now names.now from)
        (stmt_tree stmt.now) keys.now.bits (trees_of words.old) (trees_of words.new)
        table.old table.new) }
{
    statement_trees();
    match stmt {
        Stmt::Empty => Ok(()),
        Stmt::Set(target, expr) => run_set(
            alloc, target, expr, nets, names, from, starts, keys, table, words,
        ),
        Stmt::Block(all) => run_all(
            alloc,
            all.as_slice(),
            nets,
            names,
            from,
            starts,
            keys,
            table,
            words,
        ),
        Stmt::If(condition, a, None) => {
            let inner = a.get();
            without_else(stmt, condition, inner);
            let width = own(condition, nets, names, from);
            let number = add_condition(alloc, condition, width, nets, names, from, words)?;
            let mut firsts = WordBits::from_slice(alloc, table.as_slice())?;
            run_stmt(
                alloc,
                inner,
                nets,
                names,
                from,
                starts,
                keys,
                &mut firsts,
                words,
            )?;
            choose(alloc, number, width, firsts.as_slice(), table, words)
        }
        Stmt::If(condition, a, Some(b)) => {
            let first = a.get();
            let second = b.get();
            with_else(stmt, condition, first, second);
            let width = own(condition, nets, names, from);
            let number = add_condition(alloc, condition, width, nets, names, from, words)?;
            let mut firsts = WordBits::from_slice(alloc, table.as_slice())?;
            run_stmt(
                alloc,
                first,
                nets,
                names,
                from,
                starts,
                keys,
                &mut firsts,
                words,
            )?;
            run_stmt(alloc, second, nets, names, from, starts, keys, table, words)?;
            choose(alloc, number, width, firsts.as_slice(), table, words)
        }
    }
}

/// Runs statements, one after the other.
#[cycle(stmts)]
fn run_all(
    alloc: Global,
    all: &[Stmt],
    nets: &[NetInfo],
    names: &NameTable,
    from: u32,
    starts: &[u32],
    keys: &Keys,
    table: &mut WordBits,
    words: &mut Words,
) -> Result<(), Memory>
    requires room { from + length names.now < 2 ^ 32 }
    requires ready { IsStmtReady nets.now names.now from (in_sequence (map stmt_tree all.now)) }
    requires starts { AreStarts nets.now starts.now }
    requires few { bits_of nets.now < 2 ^ 32 }
    requires keys { HasKeys keys.now.bits keys.now.places }
    requires all { AllKeys keys.now.bits (scope_of nets.now names.now from)
        (in_sequence (map stmt_tree all.now)) }
    requires size { length table.old ≡ length keys.now.bits }
    requires there { AreThere (trees_of words.old) table.old }
    requires words { AreWords nets.now (trees_of words.old) }
    ensures { OnOk result (HasRun nets.now (scope_of nets.now names.now from)
        (in_sequence (map stmt_tree all.now)) keys.now.bits (trees_of words.old)
        (trees_of words.new) table.old table.new) }
{
    for stmt in all {
        run_stmt(alloc, stmt, nets, names, from, starts, keys, table, words)?;
    }
    Ok(())
}

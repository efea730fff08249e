//! Targets of assignments, and what statements set.

ghost use Rattle.std.specs.Prelude.{◌≡◌, map, option_copied, IfOk};
ghost use Rattle.eq_verilog.specs.Trees.{target_tree, stmt_tree, in_sequence};
ghost use Rattle.eq_verilog.specs.TargetRefusals as spec;
ghost use Rattle.eq_analysis.specs.Placing.{ArePlaces};
ghost use Rattle.eq_analysis.specs.Tabling.{tree_at};

use crate::placing::Places;
use crate::tables::Table;
use crate::targets::{Right, bad_target_of};
use eq_base::Memory;
use eq_names::Name;
use eq_vparse::{Stmt, Target};
use std::alloc::Global;

/// What is wrong with the target of an equation.
pub fn bad_equation_target<'a>(
    alloc: Global,
    table: &Table,
    places: &Places,
    target: &'a Target,
) -> Result<Option<&'a Name>, Memory>
    requires places { ArePlaces (tree_at table.now) places.now }
    ensures { IfOk result (λ found. option_copied found ≡
        spec.bad_equation_target (tree_at table.now) (target_tree target.now)) }
{
    let found = bad_target_of(alloc, table, places, Right::Driven, target)?;
    Ok(found)
}

/// What is wrong with what is set, or has an initial value.
pub fn bad_register_target<'a>(
    alloc: Global,
    table: &Table,
    places: &Places,
    target: &'a Target,
) -> Result<Option<&'a Name>, Memory>
    requires places { ArePlaces (tree_at table.now) places.now }
    ensures { IfOk result (λ found. option_copied found ≡
        spec.bad_register_target (tree_at table.now) (target_tree target.now)) }
{
    let found = bad_target_of(alloc, table, places, Right::Register, target)?;
    Ok(found)
}

/// What is wrong with what a statement sets.
#[cycle(stmts)]
pub fn bad_set<'a>(
    alloc: Global,
    table: &Table,
    places: &Places,
    stmt: &'a Stmt,
) -> Result<Option<&'a Name>, Memory>
    requires places { ArePlaces (tree_at table.now) places.now }
    ensures { IfOk result (λ found. option_copied found ≡
        spec.bad_set (tree_at table.now) (stmt_tree stmt.now)) }
{
    match stmt {
        Stmt::Empty => Ok(None),
        Stmt::Set(target, _) => {
            let found = bad_register_target(alloc, table, places, target)?;
            Ok(found)
        }
        Stmt::Block(all) => {
            let found = bad_sets(alloc, table, places, all.as_slice())?;
            Ok(found)
        }
        Stmt::If(_, a, None) => {
            let found = bad_set(alloc, table, places, a.get())?;
            Ok(found)
        }
        Stmt::If(_, a, Some(b)) => match bad_set(alloc, table, places, a.get())? {
            Some(name) => Ok(Some(name)),
            None => {
                let found = bad_set(alloc, table, places, b.get())?;
                Ok(found)
            }
        },
    }
}

/// What is wrong with what statements in a row set.
#[cycle(stmts)]
fn bad_sets<'a>(
    alloc: Global,
    table: &Table,
    places: &Places,
    all: &'a [Stmt],
) -> Result<Option<&'a Name>, Memory>
    requires places { ArePlaces (tree_at table.now) places.now }
    ensures { IfOk result (λ found. option_copied found ≡
        spec.bad_set (tree_at table.now) (in_sequence (map stmt_tree all.now))) }
{
    for stmt in all {
        if let Some(name) = bad_set(alloc, table, places, stmt)? {
            return Ok(Some(name));
        }
    }
    Ok(None)
}

//! The different bits that an always item sets. They are gone through from the last to the first, so that what was seen is
//! the list of the definition.

ghost use Rattle.std.specs.Prelude.{◌≡◌, ◌≤◌, ◌<◌, ◌+◌, ◌^◌, ◌++◌, ◌∷◌, [], ℕ, List, false, map, IfOk, OnOk};
ghost use Rattle.eq_verilog.specs.Trees as tree;
ghost use Rattle.eq_verilog.specs.Trees.{ExprTree, ModuleTree, join_all, in_sequence, stmt_tree, target_tree};
ghost use Rattle.eq_verilog.specs.Scopes.{Scope};
ghost use Rattle.eq_verilog.specs.Nets.{alone, module_scope, nets_at, offset};
ghost use Rattle.eq_verilog.specs.Costs.{bits_in, bits_set, different};
ghost use Rattle.eq_analysis.specs.Marking as marking;
ghost use Rattle.eq_analysis.specs.Marking.{run};
ghost use Rattle.eq_analysis.specs.Placing.{ArePlaces};
ghost use Rattle.eq_analysis.specs.Tabling.{tree_at};
ghost use Rattle.eq_cost.specs.Counts.{told};
ghost use Rattle.eq_cost.specs.inner.Seeing.{IsCounted};

use crate::counting::sum;
use eq_analysis::{Places, Table, bits_of, is_marked, low_of, mark, position};
use eq_base::Memory;
use eq_names::Name;
use eq_verilog::laws::statement_trees;
use eq_vparse::{Stmt, Target};
use std::alloc::Global;
use std::collections::HashMap;

/// Bits that were seen, and how many there are.
#[derive(Drop)]
pub struct Seen {
    pub marks: HashMap<u64, bool>,
    pub count: u64,
}

fn nothing(alloc: Global) -> Seen
    ensures { IsCounted result [] }
{
    Seen {
        marks: HashMap::new(alloc),
        count: 0,
    }
}

/// A bit that is new.
fn see_new(seen: &mut Seen, bit: u64) -> Result<(), Memory>
    requires { marking.is_marked seen.old.marks bit ≡ false }
    ensures { OnOk result ((bits : List ℕ) → IsCounted seen.old bits →
        IsCounted seen.new (bit ∷ bits)) }
{
    mark(&mut seen.marks, bit)?;
    seen.count = sum(seen.count, 1);
    Ok(())
}

#[tactic(auto, using(crate::proofs::SeenLemmas::seen_again))]
fn see_bit(seen: &mut Seen, bit: u64) -> Result<(), Memory>
    ensures { OnOk result ((bits : List ℕ) → IsCounted seen.old bits →
        IsCounted seen.new (bit ∷ bits)) }
{
    if is_marked(&seen.marks, bit) {
        Ok(())
    } else {
        see_new(seen, bit)
    }
}

/// So many bits from one on.
fn see_run(seen: &mut Seen, low: u64, count: u64) -> Result<(), Memory>
    requires room { low + count ≤ 2 ^ 63 }
    ensures { OnOk result ((bits : List ℕ) → IsCounted seen.old bits →
        IsCounted seen.new (run low count ++ bits)) }
{
    for bit in 0..count {
        see_bit(seen, low + bit)?;
    }
    Ok(())
}

/// So many bits of a net from a position on.
fn see_leaf(
    seen: &mut Seen,
    places: &Places,
    name: &Name,
    position: u32,
    count: u64,
) -> Result<(), Memory>
    requires few { count ≤ 2 ^ 32 }
    ensures { OnOk result ((m : ModuleTree) → ArePlaces m places.now → (e : ExprTree) →
        bits_in (module_scope m) e ≡ run (offset (nets_at (alone m)) name.now + position) count →
        (bits : List ℕ) → IsCounted seen.old bits →
        IsCounted seen.new (bits_in (module_scope m) e ++ bits)) }
{
    let low = low_of(places, name, position)?;
    see_run(seen, low, count)?;
    Ok(())
}

/// The bits of a net.
fn see_net(seen: &mut Seen, table: &Table, places: &Places, name: &Name) -> Result<(), Memory>
    requires places { ArePlaces (tree_at table.now) places.now }
    ensures { OnOk result ((bits : List ℕ) → IsCounted seen.old bits → IsCounted seen.new
        (bits_in (module_scope (tree_at table.now)) (tree.net name.now) ++ bits)) }
{
    see_leaf(seen, places, name, 0, bits_of(table.range(name)))?;
    Ok(())
}

/// A bit of a net.
fn see_select(
    seen: &mut Seen,
    table: &Table,
    places: &Places,
    name: &Name,
    index: u32,
) -> Result<(), Memory>
    requires places { ArePlaces (tree_at table.now) places.now }
    ensures { OnOk result ((bits : List ℕ) → IsCounted seen.old bits → IsCounted seen.new
        (bits_in (module_scope (tree_at table.now)) (tree.bit name.now index) ++ bits)) }
{
    let at = position(table.range(name), index);
    see_leaf(seen, places, name, at, 1)?;
    Ok(())
}

/// A part of a net.
fn see_part(
    seen: &mut Seen,
    table: &Table,
    places: &Places,
    name: &Name,
    left: u32,
    right: u32,
) -> Result<(), Memory>
    requires places { ArePlaces (tree_at table.now) places.now }
    ensures { OnOk result ((bits : List ℕ) → IsCounted seen.old bits → IsCounted seen.new
        (bits_in (module_scope (tree_at table.now)) (tree.part name.now left right) ++ bits)) }
{
    let at = position(table.range(name), right);
    see_leaf(seen, places, name, at, bits_of(Some((left, right))))?;
    Ok(())
}

/// The bits of a target.
#[cycle(targets)]
fn see_target(
    seen: &mut Seen,
    table: &Table,
    places: &Places,
    target: &Target,
) -> Result<(), Memory>
    requires places { ArePlaces (tree_at table.now) places.now }
    ensures { OnOk result ((bits : List ℕ) → IsCounted seen.old bits → IsCounted seen.new
        (bits_in (module_scope (tree_at table.now)) (target_tree target.now) ++ bits)) }
{
    match target {
        Target::Net(name) => see_net(seen, table, places, name),
        Target::Bit(name, index) => see_select(seen, table, places, name, *index),
        Target::Part(name, left, right) => see_part(seen, table, places, name, *left, *right),
        Target::Concat(parts) => see_targets(seen, table, places, parts.as_slice()),
    }
}

/// The bits of the parts of a concatenation, those of the last part first.
#[cycle(targets)]
fn see_targets(
    seen: &mut Seen,
    table: &Table,
    places: &Places,
    parts: &[Target],
) -> Result<(), Memory>
    requires places { ArePlaces (tree_at table.now) places.now }
    ensures { OnOk result ((bits : List ℕ) → IsCounted seen.old bits → IsCounted seen.new
        (bits_in (module_scope (tree_at table.now)) (join_all (map target_tree parts.now))
        ++ bits)) }
{
    let mut place = parts.len();
    while place > 0 {
        place -= 1;
        see_target(seen, table, places, &parts[place])?;
    }
    Ok(())
}

/// The bits that an `if` with `else` sets. It does nothing, and is called for its clause.
fn both_sides(stmt: &Stmt, a: &Stmt, b: &Stmt)
    requires { (s : Scope) → bits_set s (stmt_tree stmt.now) ≡
        bits_set s (stmt_tree a.now) ++ bits_set s (stmt_tree b.now) }
    ensures { (s : Scope) → bits_set s (stmt_tree stmt.now) ≡
        bits_set s (stmt_tree a.now) ++ bits_set s (stmt_tree b.now) }
{}

/// The bits that a statement sets.
#[cycle(stmts)]
fn see_stmt(seen: &mut Seen, table: &Table, places: &Places, stmt: &Stmt) -> Result<(), Memory>
    requires places { ArePlaces (tree_at table.now) places.now }
    ensures { OnOk result ((bits : List ℕ) → IsCounted seen.old bits → IsCounted seen.new
        (bits_set (module_scope (tree_at table.now)) (stmt_tree stmt.now) ++ bits)) }
{
    statement_trees();
    match stmt {
        Stmt::Empty => Ok(()),
        Stmt::Set(target, _) => see_target(seen, table, places, target),
        Stmt::Block(all) => see_stmts(seen, table, places, all.as_slice()),
        Stmt::If(_, a, None) => {
            see_stmt(seen, table, places, a.get())?;
            Ok(())
        }
        Stmt::If(_, a, Some(b)) => {
            let first = a.get();
            let second = b.get();
            both_sides(stmt, first, second);
            see_stmt(seen, table, places, second)?;
            see_stmt(seen, table, places, first)?;
            Ok(())
        }
    }
}

/// The bits that statements in a row set, those of the last one first.
#[cycle(stmts)]
fn see_stmts(seen: &mut Seen, table: &Table, places: &Places, all: &[Stmt]) -> Result<(), Memory>
    requires places { ArePlaces (tree_at table.now) places.now }
    ensures { OnOk result ((bits : List ℕ) → IsCounted seen.old bits → IsCounted seen.new
        (bits_set (module_scope (tree_at table.now)) (in_sequence (map stmt_tree all.now))
        ++ bits)) }
{
    let mut place = all.len();
    while place > 0 {
        place -= 1;
        see_stmt(seen, table, places, &all[place])?;
    }
    Ok(())
}

/// How many different bits a statement sets.
pub fn count_set(alloc: Global, table: &Table, places: &Places, stmt: &Stmt) -> Result<u64, Memory>
    requires places { ArePlaces (tree_at table.now) places.now }
    ensures { IfOk result (λ count. told count ≡
        told (different (bits_set (module_scope (tree_at table.now)) (stmt_tree stmt.now)))) }
{
    let mut seen = nothing(alloc);
    see_stmt(&mut seen, table, places, stmt)?;
    Ok(seen.count)
}

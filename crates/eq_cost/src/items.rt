//! What the items of a module cost, and a module.

ghost use Rattle.std.specs.Prelude.{◌≡◌, ◌+◌, ◌*◌, List, Option, map, sum_by, IfOk};
ghost use Rattle.eq_verilog.specs.Trees.{ExprTree, ModuleTree, expr_tree, item_tree, primitive, stmt_tree};
ghost use Rattle.eq_verilog.specs.Trees as tree;
ghost use Rattle.eq_verilog.specs.Hierarchy.{module_names};
ghost use Rattle.eq_verilog.specs.Sizes.{own};
ghost use Rattle.eq_verilog.specs.Nets.{module_scope};
ghost use Rattle.eq_verilog.specs.Costs as spec;
ghost use Rattle.eq_analysis.specs.Placing.{ArePlaces};
ghost use Rattle.eq_analysis.specs.Tabling.{tree_at, trees_at};
ghost use Rattle.eq_cost.specs.Counts.{told};
ghost use Rattle.eq_cost.specs.inner.Gates as gates;

use crate::connections::instance_cost;
use crate::counting::{product, sum};
use crate::expressions::{costed_all, side_cost};
use crate::lines::at;
use crate::seen::count_set;
use crate::statements::stmt_line;
use crate::target_sizes::target_size;
use eq_analysis::{Places, Table, places_of};
use eq_base::Memory;
use eq_names::NameTable;
use eq_vparse::{Expr, GateKind, Item, Stmt};
use std::alloc::Global;

/// How many of so many terminals are outputs.
fn outputs(kind: GateKind, terms: u64) -> u64
    ensures { result ≡ gates.outputs kind terms }
{
    match kind {
        GateKind::Buf | GateKind::Not => terms.saturating_sub(1),
        GateKind::And
        | GateKind::Nand
        | GateKind::Or
        | GateKind::Nor
        | GateKind::Xor
        | GateKind::Xnor => terms.min(1),
    }
}

/// Of so many outputs and inputs.
fn gate_nodes(outputs: u64, inputs: u64) -> u64
    ensures { told result ≡ told (outputs * (4 * inputs + 1)) }
{
    product(outputs, sum(product(4, inputs), 1))
}

/// What the terminals cost.
fn terms_cost(table: &Table, terms: &[Expr]) -> u64
    ensures { told result ≡ told (sum_by
        (λ e. spec.cost (module_scope (tree_at table.now)) e
        (own (module_scope (tree_at table.now)) e)) (map expr_tree terms.now)) }
{
    let all = costed_all(table, terms);
    at(all.line, 0)
}

fn gate_cost(table: &Table, kind: GateKind, terms: &[Expr]) -> u64
    ensures { (trees : List ModuleTree) (n : Option tree.Name) →
        told result ≡ told (spec.item_cost trees (module_scope (tree_at table.now))
        (primitive kind n (map expr_tree terms.now))) }
{
    let count = terms.len() as u64;
    let driven = outputs(kind, count);
    let nodes = gate_nodes(driven, count.saturating_sub(driven));
    sum(nodes, terms_cost(table, terms))
}

fn always_cost(alloc: Global, table: &Table, places: &Places, body: &Stmt) -> Result<u64, Memory>
    requires places { ArePlaces (tree_at table.now) places.now }
    ensures { IfOk result (λ cost. (trees : List ModuleTree) (t : ExprTree) → told cost ≡
        told (spec.item_cost trees (module_scope (tree_at table.now))
        (tree.always t (stmt_tree body.now)))) }
{
    let line = stmt_line(table, body);
    let count = count_set(alloc, table, places, body)?;
    Ok(at(line, count))
}

fn item_cost(
    alloc: Global,
    names: &NameTable,
    tables: &[Table],
    table: &Table,
    places: &Places,
    item: &Item,
) -> Result<u64, Memory>
    requires named { names.now ≡ module_names (trees_at tables.now) }
    requires places { ArePlaces (tree_at table.now) places.now }
    ensures { IfOk result (λ cost. told cost ≡ told (spec.item_cost (trees_at tables.now)
        (module_scope (tree_at table.now)) (item_tree item.now))) }
{
    match item {
        Item::Decl { .. } => Ok(0),
        Item::Assign { target, expr } => Ok(side_cost(table, expr, target_size(table, target))),
        Item::Gate { kind, terms, .. } => Ok(gate_cost(table, *kind, terms.as_slice())),
        Item::Instance { module, conns, .. } => {
            Ok(instance_cost(names, tables, table, module, conns))
        }
        Item::Always { body, .. } => always_cost(alloc, table, places, body),
        Item::Init { .. } => Ok(0),
    }
}

fn items_cost(
    alloc: Global,
    names: &NameTable,
    tables: &[Table],
    table: &Table,
    places: &Places,
    items: &[Item],
) -> Result<u64, Memory>
    requires named { names.now ≡ module_names (trees_at tables.now) }
    requires places { ArePlaces (tree_at table.now) places.now }
    ensures { IfOk result (λ cost. told cost ≡ told (sum_by
        (spec.item_cost (trees_at tables.now) (module_scope (tree_at table.now)))
        (map item_tree items.now))) }
{
    let mut total = 0;
    for item in items {
        let cost = item_cost(alloc, names, tables, table, places, item)?;
        total = sum(total, cost);
    }
    Ok(total)
}

/// An instance of a module, without the instances in it.
pub fn module_cost(
    alloc: Global,
    names: &NameTable,
    tables: &[Table],
    table: &Table,
) -> Result<u64, Memory>
    requires named { names.now ≡ module_names (trees_at tables.now) }
    ensures { IfOk result (λ cost. told cost ≡
        told (spec.module_cost (trees_at tables.now) (tree_at table.now))) }
{
    let places = places_of(alloc, table)?;
    let items = table.within.items.as_slice();
    let inside = items_cost(alloc, names, tables, table, &places, items)?;
    Ok(sum(places.starts.total, inside))
}

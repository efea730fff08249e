//! Connections of instances and terminals of gates that don't fit.

ghost use Rattle.std.specs.Prelude.{◌≡◌, ◌&&◌, ◌==◌, nat_lt, map, length, option_copied, is_none, None, IfOk};
ghost use Rattle.std.specs.List.{list_all};
ghost use Rattle.eq_net.specs.Meaning.{if_there};
ghost use Rattle.eq_verilog.specs.Trees.{NamedConnection, expr_tree, item_tree, named_tree, connection_list};
ghost use Rattle.eq_verilog.specs.Sizes.{own};
ghost use Rattle.eq_verilog.specs.Declarations.{has};
ghost use Rattle.eq_verilog.specs.Hierarchy.{module_names, module_named};
ghost use Rattle.eq_verilog.specs.Nets.{module_scope};
ghost use Rattle.eq_verilog.specs.Firsts as firsts;
ghost use Rattle.eq_verilog.specs.TargetRefusals as spec;
ghost use Rattle.eq_analysis.specs.Tabling.{tree_at, trees_at};

use crate::again::first_again;
use crate::ranges::size_up_to;
use crate::tabled::table_named;
use crate::tables::Table;
use eq_base::Memory;
use eq_names::{Name, NameTable};
use eq_vparse::{Conns, Expr, Item, Named};
use std::alloc::Global;

/// The ports of connections by name.
fn ports_of(alloc: Global, all: &[Named]) -> Result<Vec<&Name>, Memory>
    ensures { IfOk result (λ ports. map (λ n. n.now) ports.items ≡
        map (λ (n : NamedConnection). n.port) (map named_tree all.now)) }
{
    let mut ports = Vec::new(alloc);
    for named in all {
        ports.push(&named.port)?;
    }
    Ok(ports)
}

/// Whether no port comes twice.
fn are_apart(alloc: Global, all: &[Named]) -> Result<bool, Memory>
    ensures { IfOk result (λ apart. apart ≡ is_none (firsts.first_again
        (map (λ (n : NamedConnection). n.port) (map named_tree all.now)))) }
{
    let ports = ports_of(alloc, all)?;
    let mut seen = NameTable::new(alloc)?;
    match first_again(&mut seen, ports.as_slice())? {
        Some(_) => Ok(false),
        None => Ok(true),
    }
}

/// Whether each is of a port.
fn are_ports(inside: &Table, all: &[Named]) -> bool
    ensures { result ≡ list_all (λ (n : NamedConnection). has (tree_at inside.now).ports n.port)
        (map named_tree all.now) }
{
    for named in all {
        if !inside.is_port(&named.port) {
            return false;
        }
    }
    true
}

/// Whether each is of a port, and none comes twice.
fn are_named(alloc: Global, inside: &Table, all: &[Named]) -> Result<bool, Memory>
    ensures { IfOk result (λ fits. fits ≡ (is_none (firsts.first_again
        (map (λ (n : NamedConnection). n.port) (map named_tree all.now)))
        && list_all (λ (n : NamedConnection). has (tree_at inside.now).ports n.port)
        (map named_tree all.now))) }
{
    if are_apart(alloc, all)? {
        Ok(are_ports(inside, all))
    } else {
        Ok(false)
    }
}

/// Whether the connections fit the module's ports.
fn are_connected(alloc: Global, inside: &Table, conns: &Conns) -> Result<bool, Memory>
    ensures { IfOk result (λ fits. fits ≡
        spec.are_connected (tree_at inside.now) (connection_list conns.now)) }
{
    match conns {
        Conns::ByOrder(all) => Ok(all.len() == inside.within.ports.len()),
        Conns::ByName(all) => are_named(alloc, inside, all.as_slice()),
    }
}

/// Whether an expression has one bit.
fn has_one_bit(table: &Table, expr: &Expr) -> bool
    ensures { result ≡ (own (module_scope (tree_at table.now)) (expr_tree expr.now) == 1) }
{
    size_up_to(table, expr) == 1
}

/// Whether each terminal has one bit.
fn have_one_bit(table: &Table, terms: &[Expr]) -> bool
    ensures { result ≡ list_all (λ e. own (module_scope (tree_at table.now)) e == 1)
        (map expr_tree terms.now) }
{
    for term in terms {
        if !has_one_bit(table, term) {
            return false;
        }
    }
    true
}

/// Whether there are two terminals or more, each of one bit.
fn are_terminals(table: &Table, terms: &[Expr]) -> bool
    ensures { result ≡ spec.are_terminals (tree_at table.now) (map expr_tree terms.now) }
{
    terms.len() > 1 && have_one_bit(table, terms)
}

/// The name of a gate, or else of its module.
fn gate_name<'a>(table: &Table<'a>, name: &'a Option<Name>) -> &'a Name
    ensures { result.now ≡ if_there table.now.within.now.name (λ n. n) name.now }
{
    match name {
        Some(name) => name,
        None => &table.within.name,
    }
}

/// The gate, where its terminals don't fit.
fn bad_gate<'a>(table: &Table<'a>, name: &'a Option<Name>, terms: &[Expr]) -> Option<&'a Name>
    ensures { option_copied result ≡ firsts.unless
        (spec.are_terminals (tree_at table.now) (map expr_tree terms.now))
        (if_there table.now.within.now.name (λ n. n) name.now) }
{
    if are_terminals(table, terms) {
        None
    } else {
        Some(gate_name(table, name))
    }
}

/// The instance, where its connections don't fit.
fn bad_instance<'a>(
    alloc: Global,
    names: &NameTable,
    tables: &[Table],
    of: &Name,
    name: &'a Name,
    conns: &Conns,
) -> Result<Option<&'a Name>, Memory>
    requires named { names.now ≡ module_names (trees_at tables.now) }
    ensures { IfOk result (λ found. option_copied found ≡ if_there None
        (λ inside. firsts.unless (spec.are_connected inside (connection_list conns.now)) name.now)
        (module_named (trees_at tables.now) of.now)) }
{
    match table_named(names, tables, of) {
        Some(inside) => {
            if are_connected(alloc, inside, conns)? {
                Ok(None)
            } else {
                Ok(Some(name))
            }
        }
        None => Ok(None),
    }
}

/// The instance or gate of an item, where it doesn't fit.
fn bad_connection_at<'a>(
    alloc: Global,
    names: &NameTable,
    tables: &[Table<'a>],
    table: &Table<'a>,
    item: &'a Item,
) -> Result<Option<&'a Name>, Memory>
    requires named { names.now ≡ module_names (trees_at tables.now) }
    ensures { IfOk result (λ found. option_copied found ≡ spec.bad_connection_at
        (trees_at tables.now) (tree_at table.now) (item_tree item.now)) }
{
    match item {
        Item::Gate { name, terms, .. } => Ok(bad_gate(table, name, terms.as_slice())),
        Item::Instance {
            module,
            name,
            conns,
        } => bad_instance(alloc, names, tables, module, name, conns),
        Item::Decl { .. } => Ok(None),
        Item::Assign { .. } => Ok(None),
        Item::Always { .. } => Ok(None),
        Item::Init { .. } => Ok(None),
    }
}

fn bad_connection_in_items<'a>(
    alloc: Global,
    names: &NameTable,
    tables: &[Table<'a>],
    table: &Table<'a>,
    items: &'a [Item],
) -> Result<Option<&'a Name>, Memory>
    requires named { names.now ≡ module_names (trees_at tables.now) }
    ensures { IfOk result (λ found. option_copied found ≡ firsts.first_found
        (spec.bad_connection_at (trees_at tables.now) (tree_at table.now))
        (map item_tree items.now)) }
{
    for item in items {
        if let Some(name) = bad_connection_at(alloc, names, tables, table, item)? {
            return Ok(Some(name));
        }
    }
    Ok(None)
}

/// The first instance or gate of a module that doesn't fit.
pub fn bad_connection<'a>(
    alloc: Global,
    names: &NameTable,
    tables: &[Table<'a>],
    table: &Table<'a>,
) -> Result<Option<&'a Name>, Memory>
    requires named { names.now ≡ module_names (trees_at tables.now) }
    ensures { IfOk result (λ found. option_copied found ≡
        spec.bad_connection (trees_at tables.now) (tree_at table.now)) }
{
    bad_connection_in_items(alloc, names, tables, table, table.within.items.as_slice())
}

//! What the items of a module assign to, and what is wrong with it.

ghost use Rattle.std.specs.Prelude.{◌≡◌, ◌&&◌, not, map, option_copied, option_map, None, IfOk};
ghost use Rattle.eq_net.specs.Meaning.{if_there};
ghost use Rattle.eq_net.specs.Nets.{side_of};
ghost use Rattle.eq_verilog.specs.Trees.{connection_list, expr_tree, item_tree, named_tree};
ghost use Rattle.eq_verilog.specs.Declarations as declarations;
ghost use Rattle.eq_verilog.specs.Hierarchy.{module_names, module_named};
ghost use Rattle.eq_verilog.specs.Equations.{connected, connections_of};
ghost use Rattle.eq_verilog.specs.Firsts.{first_found, unless};
ghost use Rattle.eq_verilog.specs.TargetRefusals as targets;
ghost use Rattle.eq_analysis.specs.Placing.{ArePlaces};
ghost use Rattle.eq_analysis.specs.Tabling.{tree_at, trees_at};
ghost use Rattle.eq_analysis.specs.inner.Assigning as spec;

use crate::declaring::is_variable;
use crate::outputs::{bad_output, bad_terminal};
use crate::placing::{Places, places_of};
use crate::setting::{bad_equation_target, bad_register_target, bad_set};
use crate::tabled::table_named;
use crate::tables::Table;
use crate::targets::comes_in;
use eq_base::Memory;
use eq_names::{Name, NameTable};
use eq_net::Dir;
use eq_vparse::{Conns, DeclKind, Expr, Item, Named};
use std::alloc::Global;

fn goes_out(dir: Dir) -> bool
    ensures { result ≡ declarations.goes_out (side_of dir) }
{
    match dir {
        Dir::Output => true,
        Dir::Inner | Dir::Input => false,
    }
}

/// What is wrong with what a port of an instance is connected to.
fn bad_port<'a>(
    alloc: Global,
    table: &Table<'a>,
    places: &Places,
    inside: &Table,
    port: &Name,
    expr: &'a Expr,
) -> Result<Option<&'a Name>, Memory>
    requires places { ArePlaces (tree_at table.now) places.now }
    ensures { IfOk result (λ found. option_copied found ≡ spec.bad_port (tree_at table.now)
        (tree_at inside.now) port.now (expr_tree expr.now)) }
{
    if goes_out(inside.dir(port)) {
        let found = bad_output(alloc, table, places, expr)?;
        Ok(found)
    } else {
        Ok(None)
    }
}

/// The same of a port that may be connected.
fn bad_connected<'a>(
    alloc: Global,
    table: &Table<'a>,
    places: &Places,
    inside: &Table,
    port: &Name,
    expr: &'a Option<Expr>,
) -> Result<Option<&'a Name>, Memory>
    requires places { ArePlaces (tree_at table.now) places.now }
    ensures { IfOk result (λ found. option_copied found ≡ spec.maybe_bad (tree_at table.now)
        (tree_at inside.now) (connected port.now (option_map expr_tree expr.now))) }
{
    match expr {
        Some(expr) => {
            let found = bad_port(alloc, table, places, inside, port, expr)?;
            Ok(found)
        }
        None => Ok(None),
    }
}

/// The first that is wrong in the order of the ports.
fn bad_in_order<'a>(
    alloc: Global,
    table: &Table<'a>,
    places: &Places,
    inside: &Table,
    ports: &[Name],
    all: &'a [Option<Expr>],
) -> Result<Option<&'a Name>, Memory>
    requires places { ArePlaces (tree_at table.now) places.now }
    ensures { IfOk result (λ found. option_copied found ≡ spec.ordered_bad (tree_at table.now)
        (tree_at inside.now) ports.now (map (option_map expr_tree) all.now)) }
{
    let count = ports.len().min(all.len());
    for place in 0..count {
        let found = bad_connected(alloc, table, places, inside, &ports[place], &all[place])?;
        if let Some(name) = found {
            return Ok(Some(name));
        }
    }
    Ok(None)
}

/// A connection by name. What is no port of the module is left out.
fn bad_named<'a>(
    alloc: Global,
    table: &Table<'a>,
    places: &Places,
    inside: &Table,
    named: &'a Named,
) -> Result<Option<&'a Name>, Memory>
    requires places { ArePlaces (tree_at table.now) places.now }
    ensures { IfOk result (λ found. option_copied found ≡ spec.named_bad (tree_at table.now)
        (tree_at inside.now) (named_tree named.now)) }
{
    if inside.is_port(&named.port) {
        let found = bad_connected(alloc, table, places, inside, &named.port, &named.expr)?;
        Ok(found)
    } else {
        Ok(None)
    }
}

/// The first that is wrong by name.
fn bad_by_name<'a>(
    alloc: Global,
    table: &Table<'a>,
    places: &Places,
    inside: &Table,
    all: &'a [Named],
) -> Result<Option<&'a Name>, Memory>
    requires places { ArePlaces (tree_at table.now) places.now }
    ensures { IfOk result (λ found. option_copied found ≡ first_found
        (spec.named_bad (tree_at table.now) (tree_at inside.now)) (map named_tree all.now)) }
{
    for named in all {
        if let Some(name) = bad_named(alloc, table, places, inside, named)? {
            return Ok(Some(name));
        }
    }
    Ok(None)
}

/// The first connection of an instance that is wrong.
fn bad_connections<'a>(
    alloc: Global,
    table: &Table<'a>,
    places: &Places,
    inside: &Table,
    conns: &'a Conns,
) -> Result<Option<&'a Name>, Memory>
    requires places { ArePlaces (tree_at table.now) places.now }
    ensures { IfOk result (λ found. option_copied found ≡ first_found
        (targets.bad_connected (tree_at table.now) (tree_at inside.now))
        (connections_of (tree_at inside.now) (connection_list conns.now))) }
{
    match conns {
        Conns::ByOrder(all) => {
            let ports = inside.within.ports.as_slice();
            bad_in_order(alloc, table, places, inside, ports, all.as_slice())
        }
        Conns::ByName(all) => bad_by_name(alloc, table, places, inside, all.as_slice()),
    }
}

/// The first connection of an instance of the module of a name that is wrong.
fn bad_instance<'a>(
    alloc: Global,
    names: &NameTable,
    tables: &[Table],
    table: &Table<'a>,
    places: &Places,
    of: &Name,
    conns: &'a Conns,
) -> Result<Option<&'a Name>, Memory>
    requires named { names.now ≡ module_names (trees_at tables.now) }
    requires places { ArePlaces (tree_at table.now) places.now }
    ensures { IfOk result (λ found. option_copied found ≡ if_there None (λ inside. first_found
        (targets.bad_connected (tree_at table.now) inside)
        (connections_of inside (connection_list conns.now)))
        (module_named (trees_at tables.now) of.now)) }
{
    match table_named(names, tables, of) {
        Some(inside) => bad_connections(alloc, table, places, inside, conns),
        None => Ok(None),
    }
}

/// The name of a declaration, where it makes an input a reg.
fn bad_declaration<'a>(table: &Table, kind: DeclKind, name: &'a Name) -> Option<&'a Name>
    ensures { option_copied result ≡ unless (not (declarations.is_variable kind
        && declarations.comes_in (declarations.dir_of (tree_at table.now) name.now))) name.now }
{
    if is_variable(kind) && comes_in(table.dir(name)) {
        Some(name)
    } else {
        None
    }
}

/// What is wrong with what an item assigns to.
fn bad_target_at<'a>(
    alloc: Global,
    names: &NameTable,
    tables: &[Table],
    table: &Table<'a>,
    places: &Places,
    item: &'a Item,
) -> Result<Option<&'a Name>, Memory>
    requires named { names.now ≡ module_names (trees_at tables.now) }
    requires places { ArePlaces (tree_at table.now) places.now }
    ensures { IfOk result (λ found. option_copied found ≡ targets.bad_target_at
        (trees_at tables.now) (tree_at table.now) (item_tree item.now)) }
{
    match item {
        Item::Decl { kind, name, .. } => Ok(bad_declaration(table, *kind, name)),
        Item::Assign { target, .. } => bad_equation_target(alloc, table, places, target),
        Item::Gate { kind, terms, .. } => {
            bad_terminal(alloc, table, places, *kind, terms.as_slice())
        }
        Item::Instance { module, conns, .. } => {
            bad_instance(alloc, names, tables, table, places, module, conns)
        }
        Item::Always { body, .. } => bad_set(alloc, table, places, body),
        Item::Init { target, .. } => bad_register_target(alloc, table, places, target),
    }
}

/// The first of items that is wrong.
fn bad_target_in_items<'a>(
    alloc: Global,
    names: &NameTable,
    tables: &[Table],
    table: &Table<'a>,
    places: &Places,
    items: &'a [Item],
) -> Result<Option<&'a Name>, Memory>
    requires named { names.now ≡ module_names (trees_at tables.now) }
    requires places { ArePlaces (tree_at table.now) places.now }
    ensures { IfOk result (λ found. option_copied found ≡ first_found
        (targets.bad_target_at (trees_at tables.now) (tree_at table.now))
        (map item_tree items.now)) }
{
    for item in items {
        if let Some(name) = bad_target_at(alloc, names, tables, table, places, item)? {
            return Ok(Some(name));
        }
    }
    Ok(None)
}

/// The first target of a module that is wrong.
pub fn bad_target<'a>(
    alloc: Global,
    names: &NameTable,
    tables: &[Table],
    table: &Table<'a>,
) -> Result<Option<&'a Name>, Memory>
    requires named { names.now ≡ module_names (trees_at tables.now) }
    ensures { IfOk result (λ found. option_copied found ≡
        targets.bad_target (trees_at tables.now) (tree_at table.now)) }
{
    let places = places_of(alloc, table)?;
    let items = table.within.items.as_slice();
    let found = bad_target_in_items(alloc, names, tables, table, &places, items)?;
    Ok(found)
}

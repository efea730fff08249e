//! What the connections of an instance cost: those of its input ports.

ghost use Rattle.std.specs.Prelude.{◌≡◌, map, option_map, sum_by};
ghost use Rattle.eq_net.specs.Meaning.{if_there};
ghost use Rattle.eq_verilog.specs.Trees.{connection_list, expr_tree, named_tree};
ghost use Rattle.eq_verilog.specs.Hierarchy.{module_names, module_named};
ghost use Rattle.eq_verilog.specs.Nets.{module_scope};
ghost use Rattle.eq_verilog.specs.Equations.{connected, connections_of};
ghost use Rattle.eq_verilog.specs.Costs.{connection_cost};
ghost use Rattle.eq_analysis.specs.Tabling.{tree_at, trees_at};
ghost use Rattle.eq_cost.specs.Counts.{told};
ghost use Rattle.eq_cost.specs.inner.Connecting as spec;

use crate::counting::sum;
use crate::expressions::side_cost;
use eq_analysis::{Table, bits_of, table_named};
use eq_names::{Name, NameTable};
use eq_net::Dir;
use eq_vparse::{Conns, Expr, Named};

/// Of an expression that a port may be connected to.
fn maybe_cost(table: &Table, inside: &Table, port: &Name, expr: &Option<Expr>) -> u64
    ensures { told result ≡ told (spec.maybe_cost (module_scope (tree_at table.now))
        (tree_at inside.now) (connected port.now (option_map expr_tree expr.now))) }
{
    match expr {
        Some(expr) => connected_cost(table, inside, port, expr),
        None => 0,
    }
}

/// Of a port that is connected.
fn connected_cost(table: &Table, inside: &Table, port: &Name, expr: &Expr) -> u64
    ensures { told result ≡ told (spec.port_cost (module_scope (tree_at table.now))
        (tree_at inside.now) port.now (expr_tree expr.now)) }
{
    match inside.dir(port) {
        Dir::Input => side_cost(table, expr, bits_of(inside.range(port))),
        Dir::Inner | Dir::Output => 0,
    }
}

/// In the order of the ports.
fn ordered_cost(table: &Table, inside: &Table, ports: &[Name], all: &[Option<Expr>]) -> u64
    ensures { told result ≡ told (spec.ordered_cost (module_scope (tree_at table.now))
        (tree_at inside.now) ports.now (map (option_map expr_tree) all.now)) }
{
    let mut total = 0;
    let count = ports.len().min(all.len());
    for place in 0..count {
        total = sum(total, maybe_cost(table, inside, &ports[place], &all[place]));
    }
    total
}

/// Of a connection by name. What is no port of the module is left out.
fn named_cost(table: &Table, inside: &Table, named: &Named) -> u64
    ensures { told result ≡ told (spec.named_cost (module_scope (tree_at table.now))
        (tree_at inside.now) (named_tree named.now)) }
{
    if inside.is_port(&named.port) {
        maybe_cost(table, inside, &named.port, &named.expr)
    } else {
        0
    }
}

/// By name.
fn all_named_cost(table: &Table, inside: &Table, all: &[Named]) -> u64
    ensures { told result ≡ told (sum_by (spec.named_cost (module_scope (tree_at table.now))
        (tree_at inside.now)) (map named_tree all.now)) }
{
    let mut total = 0;
    for named in all {
        total = sum(total, named_cost(table, inside, named));
    }
    total
}

fn connections_cost(table: &Table, inside: &Table, conns: &Conns) -> u64
    ensures { told result ≡ told (sum_by
        (connection_cost (module_scope (tree_at table.now)) (tree_at inside.now))
        (connections_of (tree_at inside.now) (connection_list conns.now))) }
{
    match conns {
        Conns::ByOrder(all) => {
            ordered_cost(
                table,
                inside,
                inside.within.ports.as_slice(),
                all.as_slice(),
            )
        }
        Conns::ByName(all) => all_named_cost(table, inside, all.as_slice()),
    }
}

/// Of an instance of the module of a name.
pub fn instance_cost(
    names: &NameTable,
    tables: &[Table],
    table: &Table,
    of: &Name,
    conns: &Conns,
) -> u64
    requires named { names.now ≡ module_names (trees_at tables.now) }
    ensures { told result ≡ told (if_there 0 (λ inside. sum_by
        (connection_cost (module_scope (tree_at table.now)) inside)
        (connections_of inside (connection_list conns.now)))
        (module_named (trees_at tables.now) of.now)) }
{
    match table_named(names, tables, of) {
        Some(inside) => connections_cost(table, inside, conns),
        None => 0,
    }
}

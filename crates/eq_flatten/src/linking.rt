//! The equations of connections, from the scope of a path to that of an instance in it and back.

ghost use Rattle.std.specs.Prelude.{◌≡◌, ◌+◌, ◌∷◌, ◌<◌, ◌^◌, [], OnOk, flat_map, length, map, option_map, sum_by};
ghost use Rattle.eq_net.specs.Net.{bits_of};
ghost use Rattle.eq_net.specs.Nets.{side_of};
ghost use Rattle.eq_net.specs.Tree.{trees_of};
ghost use Rattle.eq_verilog.specs.Costs.{side_cost};
ghost use Rattle.eq_verilog.specs.Equations.{assignment, connected};
ghost use Rattle.eq_verilog.specs.Sizes as sizes;
ghost use Rattle.eq_verilog.specs.Trees.{net, expr_tree, named_tree};
ghost use Rattle.eq_analysis.specs.Finding.{scope_of};
ghost use Rattle.eq_analysis.specs.Tabling.{tree_at};
ghost use Rattle.eq_flatten.specs.Equating.{AddsEquations, AreStarts};
ghost use Rattle.eq_flatten.specs.Items.{IsSource, IsTarget};
ghost use Rattle.eq_flatten.specs.Linking.{link_cost, link_equations, maybe_cost, maybe_equations, named_connection, ordered, AreJoined, IsJoined, IsMaybeJoined};

use crate::bits::name_bits;
use crate::driving::Slot;
use crate::equations::equate;
use crate::leaves::name_word;
use crate::target_bits::add_output;
use crate::words::{narrow, word};
use eq_analysis::{Table, own, width};
use eq_base::Memory;
use eq_names::{Name, NameTable};
use eq_net::{BitNames, Dir, NetInfo, Words};
use eq_vparse::{Expr, Named};
use std::alloc::Global;

/// What is connected to an input is assigned to the port.
fn add_input(
    alloc: Global,
    port: &Name,
    expr: &Expr,
    nets: &[NetInfo],
    names: &NameTable,
    from: u32,
    inner: &NameTable,
    first: u32,
    starts: &[u32],
    words: &mut Words,
    slots: &mut [Slot],
) -> Result<(), Memory>
    requires room { from + length names.now < 2 ^ 32 }
    requires inner_room { first + length inner.now < 2 ^ 32 }
    requires port { IsTarget nets.now inner.now first (net port.now) }
    requires source { IsSource nets.now names.now from (expr_tree expr.now) }
    requires starts { AreStarts nets.now starts.now }
    requires slots { length slots.old ≡ bits_of nets.now }
    requires few { bits_of nets.now < 2 ^ 32 }
    ensures { OnOk result (AddsEquations nets.now (trees_of words.old) (trees_of words.new)
        slots.old slots.new
        (assignment (scope_of nets.now inner.now first) (net port.now)
        (scope_of nets.now names.now from) (expr_tree expr.now) ∷ [])
        (side_cost (scope_of nets.now names.now from) (expr_tree expr.now)
        (sizes.own (scope_of nets.now inner.now first) (net port.now)))) }
{
    let bits = name_bits(alloc, port, nets, inner, first)?;
    let count = narrow(bits.len())?;
    let size = count.max(own(expr, nets, names, from));
    let made = word(alloc, expr, size, nets, names, from, words)?;
    equate(bits.as_slice(), made, nets, starts, words, slots)
}

/// An output is assigned to what it is connected to.
fn add_result(
    alloc: Global,
    port: &Name,
    expr: &Expr,
    nets: &[NetInfo],
    names: &NameTable,
    from: u32,
    inner: &NameTable,
    first: u32,
    starts: &[u32],
    words: &mut Words,
    slots: &mut [Slot],
) -> Result<(), Memory>
    requires room { from + length names.now < 2 ^ 32 }
    requires inner_room { first + length inner.now < 2 ^ 32 }
    requires port { IsSource nets.now inner.now first (net port.now) }
    requires target { IsTarget nets.now names.now from (expr_tree expr.now) }
    requires starts { AreStarts nets.now starts.now }
    requires slots { length slots.old ≡ bits_of nets.now }
    requires few { bits_of nets.now < 2 ^ 32 }
    ensures { OnOk result (AddsEquations nets.now (trees_of words.old) (trees_of words.new)
        slots.old slots.new
        (assignment (scope_of nets.now names.now from) (expr_tree expr.now)
        (scope_of nets.now inner.now first) (net port.now) ∷ [])
        (side_cost (scope_of nets.now inner.now first) (net port.now)
        (sizes.own (scope_of nets.now names.now from) (expr_tree expr.now)))) }
{
    let mut bits = BitNames::new(alloc);
    add_output(alloc, &mut bits, expr, nets, names, from)?;
    let count = narrow(bits.len())?;
    let size = count.max(width(nets, inner, first, port));
    let made = name_word(alloc, port, size, nets, inner, first)?;
    equate(bits.as_slice(), made, nets, starts, words, slots)
}

/// The equations of a connection to a port of a direction.
pub fn add_connection(
    alloc: Global,
    dir: Dir,
    port: &Name,
    expr: &Expr,
    nets: &[NetInfo],
    names: &NameTable,
    from: u32,
    inner: &NameTable,
    first: u32,
    starts: &[u32],
    words: &mut Words,
    slots: &mut [Slot],
) -> Result<(), Memory>
    requires room { from + length names.now < 2 ^ 32 }
    requires inner_room { first + length inner.now < 2 ^ 32 }
    requires joined { IsJoined nets.now inner.now first names.now from (side_of dir) port.now
        (expr_tree expr.now) }
    requires starts { AreStarts nets.now starts.now }
    requires slots { length slots.old ≡ bits_of nets.now }
    requires few { bits_of nets.now < 2 ^ 32 }
    ensures { OnOk result (AddsEquations nets.now (trees_of words.old) (trees_of words.new)
        slots.old slots.new
        (link_equations (scope_of nets.now inner.now first) (scope_of nets.now names.now from)
        (side_of dir) port.now (expr_tree expr.now))
        (link_cost (scope_of nets.now inner.now first) (scope_of nets.now names.now from)
        (side_of dir) port.now (expr_tree expr.now))) }
{
    match dir {
        Dir::Input => add_input(
            alloc, port, expr, nets, names, from, inner, first, starts, words, slots,
        ),
        Dir::Output => add_result(
            alloc, port, expr, nets, names, from, inner, first, starts, words, slots,
        ),
        Dir::Inner => Ok(()),
    }
}

/// The equations of a port that may be connected.
fn add_maybe(
    alloc: Global,
    inside: &Table,
    port: &Name,
    expr: &Option<Expr>,
    nets: &[NetInfo],
    names: &NameTable,
    from: u32,
    inner: &NameTable,
    first: u32,
    starts: &[u32],
    words: &mut Words,
    slots: &mut [Slot],
) -> Result<(), Memory>
    requires room { from + length names.now < 2 ^ 32 }
    requires inner_room { first + length inner.now < 2 ^ 32 }
    requires joined { IsMaybeJoined nets.now inner.now first names.now from (tree_at inside.now)
        (connected port.now (option_map expr_tree expr.now)) }
    requires starts { AreStarts nets.now starts.now }
    requires slots { length slots.old ≡ bits_of nets.now }
    requires few { bits_of nets.now < 2 ^ 32 }
    ensures { OnOk result (AddsEquations nets.now (trees_of words.old) (trees_of words.new)
        slots.old slots.new
        (maybe_equations (scope_of nets.now inner.now first) (scope_of nets.now names.now from)
        (tree_at inside.now) (connected port.now (option_map expr_tree expr.now)))
        (maybe_cost (scope_of nets.now inner.now first) (scope_of nets.now names.now from)
        (tree_at inside.now) (connected port.now (option_map expr_tree expr.now)))) }
{
    match expr {
        Some(expr) => add_connection(
            alloc,
            inside.dir(port),
            port,
            expr,
            nets,
            names,
            from,
            inner,
            first,
            starts,
            words,
            slots,
        ),
        None => Ok(()),
    }
}

/// The equations of connections by name. What is no port of the module is left out.
pub fn add_by_name(
    alloc: Global,
    inside: &Table,
    all: &[Named],
    nets: &[NetInfo],
    names: &NameTable,
    from: u32,
    inner: &NameTable,
    first: u32,
    starts: &[u32],
    words: &mut Words,
    slots: &mut [Slot],
) -> Result<(), Memory>
    requires room { from + length names.now < 2 ^ 32 }
    requires inner_room { first + length inner.now < 2 ^ 32 }
    requires joined { AreJoined nets.now inner.now first names.now from (tree_at inside.now)
        (map (named_connection (tree_at inside.now)) (map named_tree all.now)) }
    requires starts { AreStarts nets.now starts.now }
    requires slots { length slots.old ≡ bits_of nets.now }
    requires few { bits_of nets.now < 2 ^ 32 }
    ensures { OnOk result (AddsEquations nets.now (trees_of words.old) (trees_of words.new)
        slots.old slots.new
        (flat_map (maybe_equations (scope_of nets.now inner.now first)
        (scope_of nets.now names.now from) (tree_at inside.now))
        (map (named_connection (tree_at inside.now)) (map named_tree all.now)))
        (sum_by (maybe_cost (scope_of nets.now inner.now first)
        (scope_of nets.now names.now from) (tree_at inside.now))
        (map (named_connection (tree_at inside.now)) (map named_tree all.now)))) }
{
    for named in all {
        add_named(
            alloc, inside, named, nets, names, from, inner, first, starts, words, slots,
        )?;
    }
    Ok(())
}

/// The equations of a connection by name.
fn add_named(
    alloc: Global,
    inside: &Table,
    named: &Named,
    nets: &[NetInfo],
    names: &NameTable,
    from: u32,
    inner: &NameTable,
    first: u32,
    starts: &[u32],
    words: &mut Words,
    slots: &mut [Slot],
) -> Result<(), Memory>
    requires room { from + length names.now < 2 ^ 32 }
    requires inner_room { first + length inner.now < 2 ^ 32 }
    requires joined { IsMaybeJoined nets.now inner.now first names.now from (tree_at inside.now)
        (named_connection (tree_at inside.now) (named_tree named.now)) }
    requires starts { AreStarts nets.now starts.now }
    requires slots { length slots.old ≡ bits_of nets.now }
    requires few { bits_of nets.now < 2 ^ 32 }
    ensures { OnOk result (AddsEquations nets.now (trees_of words.old) (trees_of words.new)
        slots.old slots.new
        (maybe_equations (scope_of nets.now inner.now first) (scope_of nets.now names.now from)
        (tree_at inside.now) (named_connection (tree_at inside.now) (named_tree named.now)))
        (maybe_cost (scope_of nets.now inner.now first) (scope_of nets.now names.now from)
        (tree_at inside.now) (named_connection (tree_at inside.now) (named_tree named.now)))) }
{
    if inside.is_port(&named.port) {
        add_maybe(
            alloc,
            inside,
            &named.port,
            &named.expr,
            nets,
            names,
            from,
            inner,
            first,
            starts,
            words,
            slots,
        )
    } else {
        Ok(())
    }
}

/// The equations of connections in the order of the ports.
pub fn add_by_order(
    alloc: Global,
    inside: &Table,
    ports: &[Name],
    all: &[Option<Expr>],
    nets: &[NetInfo],
    names: &NameTable,
    from: u32,
    inner: &NameTable,
    first: u32,
    starts: &[u32],
    words: &mut Words,
    slots: &mut [Slot],
) -> Result<(), Memory>
    requires room { from + length names.now < 2 ^ 32 }
    requires inner_room { first + length inner.now < 2 ^ 32 }
    requires joined { AreJoined nets.now inner.now first names.now from (tree_at inside.now)
        (ordered ports.now (map (option_map expr_tree) all.now)) }
    requires starts { AreStarts nets.now starts.now }
    requires slots { length slots.old ≡ bits_of nets.now }
    requires few { bits_of nets.now < 2 ^ 32 }
    ensures { OnOk result (AddsEquations nets.now (trees_of words.old) (trees_of words.new)
        slots.old slots.new
        (flat_map (maybe_equations (scope_of nets.now inner.now first)
        (scope_of nets.now names.now from) (tree_at inside.now))
        (ordered ports.now (map (option_map expr_tree) all.now)))
        (sum_by (maybe_cost (scope_of nets.now inner.now first)
        (scope_of nets.now names.now from) (tree_at inside.now))
        (ordered ports.now (map (option_map expr_tree) all.now)))) }
{
    let count = ports.len().min(all.len());
    for place in 0..count {
        add_maybe(
            alloc,
            inside,
            &ports[place],
            &all[place],
            nets,
            names,
            from,
            inner,
            first,
            starts,
            words,
            slots,
        )?;
    }
    Ok(())
}

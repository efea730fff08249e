//! The equations of the connections of all instances: of each link between the path that it stands in and its own.

ghost use Rattle.std.specs.Prelude.{◌≡◌, ◌+◌, ◌<◌, ◌^◌, OnOk, length, map, zip};
ghost use Rattle.eq_net.specs.Net.{bits_of};
ghost use Rattle.eq_net.specs.Tree.{trees_of};
ghost use Rattle.eq_verilog.specs.Trees.{connection_list};
ghost use Rattle.eq_analysis.specs.Finding.{scope_of};
ghost use Rattle.eq_analysis.specs.Tabling.{tree_at, trees_at};
ghost use Rattle.eq_flatten.specs.Equating.{AddsEquations, AreStarts};
ghost use Rattle.eq_flatten.specs.Joining.{all_joined, all_joined_cost, conns_cost, conns_equations, inside_cost, inside_equations, joined_cost, joined_equations, maybe_connections, scope_in, AreLinksReady, IsBetween, IsInside, IsLinkReady};
ghost use Rattle.eq_flatten.specs.Linking.{AreJoined};
ghost use Rattle.eq_flatten.specs.Owning.{names_in};

use crate::driving::Slot;
use crate::linking::{add_by_name, add_by_order};
use crate::owning::{Owned, owned_at};
use crate::paths::{Link, Path};
use eq_analysis::{Table, table_at};
use eq_base::Memory;
use eq_names::NameTable;
use eq_net::{NetInfo, Words};
use eq_vparse::Conns;
use std::alloc::Global;

/// The equations of the connections of all instances. The link of path `k + 1` is link `k`.
pub fn add_links(
    alloc: Global,
    links: &[Link],
    paths: &[Path],
    firsts: &[u32],
    tables: &[Table],
    owned: &[Owned],
    nets: &[NetInfo],
    starts: &[u32],
    words: &mut Words,
    slots: &mut [Slot],
) -> Result<(), Memory>
    requires size { length firsts.now ≡ length paths.now }
    requires ready { AreLinksReady nets.now (trees_at tables.now) (map names_in owned.now)
        (zip paths.now firsts.now) 1 links.now }
    requires starts { AreStarts nets.now starts.now }
    requires slots { length slots.old ≡ bits_of nets.now }
    requires few { bits_of nets.now < 2 ^ 32 }
    ensures { OnOk result (AddsEquations nets.now (trees_of words.old) (trees_of words.new)
        slots.old slots.new
        (all_joined nets.now (map names_in owned.now) (zip paths.now firsts.now) 1 links.now)
        (all_joined_cost nets.now (map names_in owned.now) (zip paths.now firsts.now) 1 links.now)) }
{
    for place in 0..links.len() {
        add_link_at(
            alloc,
            &links[place],
            place,
            paths,
            firsts,
            tables,
            owned,
            nets,
            starts,
            words,
            slots,
        )?;
    }
    Ok(())
}

/// The equations of the connections of the instance of link `place`.
fn add_link_at(
    alloc: Global,
    link: &Link,
    place: usize,
    paths: &[Path],
    firsts: &[u32],
    tables: &[Table],
    owned: &[Owned],
    nets: &[NetInfo],
    starts: &[u32],
    words: &mut Words,
    slots: &mut [Slot],
) -> Result<(), Memory>
    requires size { length firsts.now ≡ length paths.now }
    requires outer { link.now.within < length paths.now }
    requires own { place + 1 < length paths.now }
    requires ready { IsLinkReady nets.now (trees_at tables.now) (map names_in owned.now)
        (zip paths.now firsts.now) (place + 1) link.now }
    requires starts { AreStarts nets.now starts.now }
    requires slots { length slots.old ≡ bits_of nets.now }
    requires few { bits_of nets.now < 2 ^ 32 }
    ensures { OnOk result (AddsEquations nets.now (trees_of words.old) (trees_of words.new)
        slots.old slots.new
        (joined_equations nets.now (map names_in owned.now) (zip paths.now firsts.now) (place + 1)
        link.now)
        (joined_cost nets.now (map names_in owned.now) (zip paths.now firsts.now) (place + 1)
        link.now)) }
{
    add_link(
        alloc,
        link.conns,
        &paths[link.within],
        firsts[link.within],
        &paths[place + 1],
        firsts[place + 1],
        tables,
        owned,
        nets,
        starts,
        words,
        slots,
    )
}

/// The equations of the connections of an instance, between its path and the one that it stands in.
fn add_link(
    alloc: Global,
    conns: &Conns,
    outer: &Path,
    from: u32,
    inner: &Path,
    first: u32,
    tables: &[Table],
    owned: &[Owned],
    nets: &[NetInfo],
    starts: &[u32],
    words: &mut Words,
    slots: &mut [Slot],
) -> Result<(), Memory>
    requires between { IsBetween nets.now (trees_at tables.now) (map names_in owned.now)
        (connection_list conns.now) (outer.now, from) (inner.now, first) }
    requires starts { AreStarts nets.now starts.now }
    requires slots { length slots.old ≡ bits_of nets.now }
    requires few { bits_of nets.now < 2 ^ 32 }
    ensures { OnOk result (AddsEquations nets.now (trees_of words.old) (trees_of words.new)
        slots.old slots.new
        (inside_equations nets.now (map names_in owned.now) (connection_list conns.now)
        (scope_in nets.now (map names_in owned.now) (outer.now, from)) (inner.now, first))
        (inside_cost nets.now (map names_in owned.now) (connection_list conns.now)
        (scope_in nets.now (map names_in owned.now) (outer.now, from)) (inner.now, first))) }
{
    match owned_at(owned, outer.of.place) {
        Some(of) => add_inside(
            alloc, conns, &of.names, from, inner, first, tables, owned, nets, starts, words, slots,
        ),
        None => Ok(()),
    }
}

/// The same where the names of the outer path's module are found.
fn add_inside(
    alloc: Global,
    conns: &Conns,
    names: &NameTable,
    from: u32,
    inner: &Path,
    first: u32,
    tables: &[Table],
    owned: &[Owned],
    nets: &[NetInfo],
    starts: &[u32],
    words: &mut Words,
    slots: &mut [Slot],
) -> Result<(), Memory>
    requires inside { IsInside nets.now (trees_at tables.now) (map names_in owned.now)
        (connection_list conns.now) names.now from (inner.now, first) }
    requires starts { AreStarts nets.now starts.now }
    requires slots { length slots.old ≡ bits_of nets.now }
    requires few { bits_of nets.now < 2 ^ 32 }
    ensures { OnOk result (AddsEquations nets.now (trees_of words.old) (trees_of words.new)
        slots.old slots.new
        (inside_equations nets.now (map names_in owned.now) (connection_list conns.now)
        (scope_of nets.now names.now from) (inner.now, first))
        (inside_cost nets.now (map names_in owned.now) (connection_list conns.now)
        (scope_of nets.now names.now from) (inner.now, first))) }
{
    match (
        table_at(tables, inner.of.place),
        owned_at(owned, inner.of.place),
    ) {
        (Some(inside), Some(of)) => add_conns(
            alloc, inside, conns, nets, names, from, &of.names, first, starts, words, slots,
        ),
        _ => Ok(()),
    }
}

/// The equations of the connections of an instance whose module has this table.
fn add_conns(
    alloc: Global,
    inside: &Table,
    conns: &Conns,
    nets: &[NetInfo],
    names: &NameTable,
    from: u32,
    inner: &NameTable,
    first: u32,
    starts: &[u32],
    words: &mut Words,
    slots: &mut [Slot],
) -> Result<(), Memory>
    requires room { from + length names.now < 2 ^ 32 }
    requires inner_room { first + length inner.now < 2 ^ 32 }
    requires joined { AreJoined nets.now inner.now first names.now from (tree_at inside.now)
        (maybe_connections (tree_at inside.now) (connection_list conns.now)) }
    requires starts { AreStarts nets.now starts.now }
    requires slots { length slots.old ≡ bits_of nets.now }
    requires few { bits_of nets.now < 2 ^ 32 }
    ensures { OnOk result (AddsEquations nets.now (trees_of words.old) (trees_of words.new)
        slots.old slots.new
        (conns_equations (scope_of nets.now inner.now first) (scope_of nets.now names.now from)
        (tree_at inside.now) (connection_list conns.now))
        (conns_cost (scope_of nets.now inner.now first) (scope_of nets.now names.now from)
        (tree_at inside.now) (connection_list conns.now))) }
{
    match conns {
        Conns::ByOrder(all) => add_by_order(
            alloc,
            inside,
            inside.within.ports.as_slice(),
            all.as_slice(),
            nets,
            names,
            from,
            inner,
            first,
            starts,
            words,
            slots,
        ),
        Conns::ByName(all) => add_by_name(
            alloc,
            inside,
            all.as_slice(),
            nets,
            names,
            from,
            inner,
            first,
            starts,
            words,
            slots,
        ),
    }
}

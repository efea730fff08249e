//! The graph of modules: an edge from each module to that of each of its instances, by their places among all modules. With
//! numbers of its components, a module whose instances all lead to greater numbers than its own doesn't lead back to itself.

ghost use Rattle.std.specs.Prelude.{◌≡◌, IfOk, OnOk, map, slice_index, true};
ghost use Rattle.std.specs.List.{list_all};
ghost use Rattle.eq_verilog.specs.Trees.{module_tree, item_tree};
ghost use Rattle.eq_analysis.specs.inner.Climbing.{item_climbs, AreJoined, HasEdges, IsApart, IsJoined, Keeps, NumbersClimb};

use crate::visiting::instantiated;
use eq_base::Memory;
use eq_loops::component_numbers;
use eq_names::NameTable;
use eq_reads::Edge;
use eq_vparse::{Item, Module};
use std::alloc::Global;

/// Puts the edge of an instance behind others, where its module is there.
fn add_edge(
    edges: &mut Vec<Edge>,
    names: &NameTable,
    from: usize,
    item: &Item,
) -> Result<(), Memory>
    ensures kept { OnOk result (Keeps edges.old.items edges.new.items) }
    ensures there { OnOk result (IsJoined edges.new.items names.now from (item_tree item.now)) }
{
    if let Some(name) = instantiated(item) {
        if let Some(to) = names.find(name.bytes()) {
            edges.push(Edge {
                from,
                to: to as usize,
            })?;
        }
    }
    Ok(())
}

/// Puts the edges of all instances of a module behind others.
fn add_edges(
    edges: &mut Vec<Edge>,
    names: &NameTable,
    from: usize,
    items: &[Item],
) -> Result<(), Memory>
    ensures kept { OnOk result (Keeps edges.old.items edges.new.items) }
    ensures there { OnOk result (AreJoined edges.new.items names.now from
        (map item_tree items.now)) }
{
    for item in items {
        add_edge(edges, names, from, item)?;
    }
    Ok(())
}

/// The edges of all modules.
fn edges_of(alloc: Global, names: &NameTable, modules: &[&Module]) -> Result<Vec<Edge>, Memory>
    ensures { IfOk result (λ edges. HasEdges edges.items names.now
        (map (λ m. module_tree m.now) modules.now)) }
{
    let mut edges = Vec::new(alloc);
    for place in 0..modules.len() {
        add_edges(&mut edges, names, place, modules[place].items.as_slice())?;
    }
    Ok(edges)
}

/// A number for each module by its place, that of its component.
pub fn numbers_of(
    alloc: Global,
    names: &NameTable,
    modules: &[&Module],
) -> Result<Vec<usize>, Memory>
    ensures { IfOk result (λ numbers. NumbersClimb numbers.items names.now
        (map (λ m. module_tree m.now) modules.now)) }
{
    let edges = edges_of(alloc, names, modules)?;
    let numbers = component_numbers(alloc, modules.len(), edges.as_slice())?;
    Ok(numbers)
}

/// The number at a place, 0 behind the last.
fn number_at(numbers: &[usize], place: u32) -> usize
    ensures { result ≡ slice_index numbers.now place }
{
    match numbers.get(place as usize) {
        Some(number) => *number,
        None => 0,
    }
}

/// Whether the module that an item instantiates, if it is there, has at least this number.
fn climbs(names: &NameTable, numbers: &[usize], least: usize, item: &Item) -> bool
    ensures { result ≡ item_climbs numbers.now names.now least (item_tree item.now) }
{
    match instantiated(item) {
        Some(name) => match names.find(name.bytes()) {
            Some(place) => number_at(numbers, place) >= least,
            None => true,
        },
        None => true,
    }
}

/// Whether this is so of all items.
fn all_climb(names: &NameTable, numbers: &[usize], least: usize, items: &[Item]) -> bool
    ensures { result ≡ list_all (item_climbs numbers.now names.now least)
        (map item_tree items.now) }
{
    for item in items {
        if !climbs(names, numbers, least, item) {
            return false;
        }
    }
    true
}

/// Whether the modules of a module's instances all have greater numbers than its own.
pub fn stands_apart(names: &NameTable, numbers: &[usize], above: &Module) -> bool
    ensures { result ≡ true → IsApart numbers.now names.now (module_tree above.now) }
{
    let Some(place) = names.find(above.name.bytes()) else {
        return false;
    };
    match number_at(numbers, place).checked_add(1) {
        Some(least) => all_climb(names, numbers, least, above.items.as_slice()),
        None => false,
    }
}

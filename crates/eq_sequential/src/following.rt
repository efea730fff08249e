//! The always items of all instances: which always item sets each bit, and by which bit of a word.

ghost use Rattle.std.specs.Prelude.{◌≡◌, ◌+◌, ◌<◌, ◌≤◌, ◌^◌, ◌∷◌, [], IfOk, OnOk, flat_map, length, map, replicate, sum_by, zip};
ghost use Rattle.eq_net.specs.Meaning.{cost_of};
ghost use Rattle.eq_net.specs.Net.{bits_of, AreWords};
ghost use Rattle.eq_net.specs.Tree.{trees_of};
ghost use Rattle.eq_verilog.specs.Trees.{item_tree, stmt_tree};
ghost use Rattle.eq_analysis.specs.Finding.{scope_of};
ghost use Rattle.eq_flatten.specs.declared.driving.Slot.TheVariants.{Free};
ghost use Rattle.eq_flatten.specs.Equating.{AreStarts};
ghost use Rattle.eq_flatten.specs.Owning.{names_in};
ghost use Rattle.eq_flatten.specs.Rendering.{KeepsFront};
ghost use Rattle.eq_registers.specs.Running.{IsStmtReady};
ghost use Rattle.eq_layout.specs.Layout.{design_in, AreSound, IsLaidOut};
ghost use Rattle.eq_layout.specs.Spending.{path_process_cost, process_cost, process_costs};
ghost use Rattle.eq_sequential.specs.Setting.{AreFollowed};
ghost use Rattle.eq_sequential.specs.inner.Processing.{path_processes, processes_in, AddsBody, AddsProcesses, AreAlwaysReady, ArePathsRunning, IsAlwaysReady, IsPathRunning};

use crate::beginning::free_slots;
use crate::paths::{is_narrow, owned_at};
use crate::placing::put_all;
use eq_base::Memory;
use eq_flatten::{Owned, Path, Slot};
use eq_layout::Layout;
use eq_names::{Name, NameTable};
use eq_net::{NetInfo, Words};
use eq_registers::next_values;
use eq_verilog::laws::offsets_by_path;
use eq_vparse::{Item, Stmt};
use std::alloc::Global;

/// Which always item sets each bit, and by which bit of a word.
pub fn all_next(
    alloc: Global,
    layout: &Layout,
    top: &Name,
    words: &mut Words,
) -> Result<Vec<Slot>, Memory>
    requires laid { IsLaidOut top.now layout.now }
    requires sound { AreSound top.now layout.now }
    requires words { AreWords layout.now.flat.nets.items (trees_of words.old) }
    ensures size { IfOk result (λ slots. length slots.items ≡ bits_of layout.now.flat.nets.items) }
    ensures followed { IfOk result (λ slots. AreFollowed layout.now.flat.nets.items
        (trees_of words.new) (design_in layout.now top.now).processes slots.items) }
    ensures kept { OnOk result (KeepsFront (trees_of words.old) (trees_of words.new)) }
    ensures words { OnOk result (AreWords layout.now.flat.nets.items (trees_of words.new)) }
    ensures costs { OnOk result (sum_by cost_of (trees_of words.new) ≤
        sum_by cost_of (trees_of words.old) + process_costs layout.now) }
{
    offsets_by_path();
    is_narrow(layout.starts.bits);
    let slots = next_of(
        alloc,
        layout.found.paths.as_slice(),
        layout.owned.as_slice(),
        layout.flat.firsts.as_slice(),
        layout.flat.nets.as_slice(),
        layout.starts.starts.as_slice(),
        layout.starts.bits,
        words,
    )?;
    Ok(slots)
}

/// What sets each bit, of the always items of these paths, all of which are ready.
fn next_of(
    alloc: Global,
    paths: &[Path],
    owned: &[Owned],
    firsts: &[u32],
    nets: &[NetInfo],
    starts: &[u32],
    bits: u32,
    words: &mut Words,
) -> Result<Vec<Slot>, Memory>
    requires size { length firsts.now ≡ length paths.now }
    requires ready { ArePathsRunning nets.now (map names_in owned.now) (zip paths.now firsts.now) }
    requires starts { AreStarts nets.now starts.now }
    requires bits { bits ≡ bits_of nets.now }
    requires words { AreWords nets.now (trees_of words.old) }
    ensures { IfOk result (λ slots. AddsProcesses nets.now (trees_of words.old) (trees_of words.new)
        (replicate bits Free) slots.items
        (flat_map (path_processes nets.now (map names_in owned.now)) (zip paths.now firsts.now))
        (sum_by (path_process_cost nets.now (map names_in owned.now))
        (zip paths.now firsts.now))) }
{
    let mut slots = free_slots(alloc, bits as usize)?;
    add_paths(
        alloc,
        paths,
        owned,
        firsts,
        nets,
        starts,
        words,
        slots.as_mut_slice(),
    )?;
    Ok(slots)
}

/// The always items of all instances.
fn add_paths(
    alloc: Global,
    paths: &[Path],
    owned: &[Owned],
    firsts: &[u32],
    nets: &[NetInfo],
    starts: &[u32],
    words: &mut Words,
    slots: &mut [Slot],
) -> Result<(), Memory>
    requires size { length firsts.now ≡ length paths.now }
    requires ready { ArePathsRunning nets.now (map names_in owned.now) (zip paths.now firsts.now) }
    requires starts { AreStarts nets.now starts.now }
    requires slots { length slots.old ≡ bits_of nets.now }
    requires few { bits_of nets.now < 2 ^ 32 }
    requires words { AreWords nets.now (trees_of words.old) }
    ensures { OnOk result (AddsProcesses nets.now (trees_of words.old) (trees_of words.new)
        slots.old slots.new
        (flat_map (path_processes nets.now (map names_in owned.now)) (zip paths.now firsts.now))
        (sum_by (path_process_cost nets.now (map names_in owned.now))
        (zip paths.now firsts.now))) }
{
    for place in 0..paths.len() {
        add_path(
            alloc,
            &paths[place],
            owned,
            firsts[place],
            nets,
            starts,
            words,
            slots,
        )?;
    }
    Ok(())
}

/// The always items of an instance.
fn add_path(
    alloc: Global,
    path: &Path,
    owned: &[Owned],
    from: u32,
    nets: &[NetInfo],
    starts: &[u32],
    words: &mut Words,
    slots: &mut [Slot],
) -> Result<(), Memory>
    requires ready { IsPathRunning nets.now (map names_in owned.now) (path.now, from) }
    requires starts { AreStarts nets.now starts.now }
    requires slots { length slots.old ≡ bits_of nets.now }
    requires few { bits_of nets.now < 2 ^ 32 }
    requires words { AreWords nets.now (trees_of words.old) }
    ensures { OnOk result (AddsProcesses nets.now (trees_of words.old) (trees_of words.new)
        slots.old slots.new (path_processes nets.now (map names_in owned.now) (path.now, from))
        (path_process_cost nets.now (map names_in owned.now) (path.now, from))) }
{
    match owned_at(owned, path.of.place) {
        Some(of) => add_module(
            alloc,
            path.of.module.items.as_slice(),
            nets,
            &of.names,
            from,
            starts,
            words,
            slots,
        ),
        None => Ok(()),
    }
}

/// The always items of a module in an instance.
fn add_module(
    alloc: Global,
    items: &[Item],
    nets: &[NetInfo],
    names: &NameTable,
    from: u32,
    starts: &[u32],
    words: &mut Words,
    slots: &mut [Slot],
) -> Result<(), Memory>
    requires room { from + length names.now < 2 ^ 32 }
    requires ready { AreAlwaysReady nets.now names.now from (map item_tree items.now) }
    requires starts { AreStarts nets.now starts.now }
    requires slots { length slots.old ≡ bits_of nets.now }
    requires few { bits_of nets.now < 2 ^ 32 }
    requires words { AreWords nets.now (trees_of words.old) }
    ensures { OnOk result (AddsProcesses nets.now (trees_of words.old) (trees_of words.new)
        slots.old slots.new
        (processes_in (scope_of nets.now names.now from) (map item_tree items.now))
        (sum_by (process_cost (scope_of nets.now names.now from)) (map item_tree items.now))) }
{
    for item in items {
        add_item(alloc, item, nets, names, from, starts, words, slots)?;
    }
    Ok(())
}

/// An item, if it is an always item.
fn add_item(
    alloc: Global,
    item: &Item,
    nets: &[NetInfo],
    names: &NameTable,
    from: u32,
    starts: &[u32],
    words: &mut Words,
    slots: &mut [Slot],
) -> Result<(), Memory>
    requires room { from + length names.now < 2 ^ 32 }
    requires ready { IsAlwaysReady nets.now names.now from (item_tree item.now) }
    requires starts { AreStarts nets.now starts.now }
    requires slots { length slots.old ≡ bits_of nets.now }
    requires few { bits_of nets.now < 2 ^ 32 }
    requires words { AreWords nets.now (trees_of words.old) }
    ensures { OnOk result (AddsProcesses nets.now (trees_of words.old) (trees_of words.new)
        slots.old slots.new
        (processes_in (scope_of nets.now names.now from) (item_tree item.now ∷ []))
        (process_cost (scope_of nets.now names.now from) (item_tree item.now))) }
{
    match item {
        Item::Always { body, .. } => {
            add_body(alloc, body, nets, names, from, starts, words, slots)
        }
        Item::Decl { .. } => Ok(()),
        Item::Assign { .. } => Ok(()),
        Item::Gate { .. } => Ok(()),
        Item::Instance { .. } => Ok(()),
        Item::Init { .. } => Ok(()),
    }
}

/// What the body of an always item sets.
fn add_body(
    alloc: Global,
    body: &Stmt,
    nets: &[NetInfo],
    names: &NameTable,
    from: u32,
    starts: &[u32],
    words: &mut Words,
    slots: &mut [Slot],
) -> Result<(), Memory>
    requires room { from + length names.now < 2 ^ 32 }
    requires ready { IsStmtReady nets.now names.now from (stmt_tree body.now) }
    requires starts { AreStarts nets.now starts.now }
    requires slots { length slots.old ≡ bits_of nets.now }
    requires few { bits_of nets.now < 2 ^ 32 }
    requires words { AreWords nets.now (trees_of words.old) }
    ensures { OnOk result (AddsBody nets.now (scope_of nets.now names.now from)
        (stmt_tree body.now) (trees_of words.old) (trees_of words.new) slots.old slots.new) }
{
    let next = next_values(alloc, body, nets, names, from, starts, words)?;
    put_all(next.keys.bits.as_slice(), next.table.as_slice(), slots);
    Ok(())
}

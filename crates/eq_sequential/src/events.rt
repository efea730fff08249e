//! The events of all always items: the bit at whose edge each runs.

ghost use Rattle.std.specs.Prelude.{◌≡◌, ◌+◌, ◌<◌, ◌^◌, ◌∷◌, [], All, IfOk, IfSome, OnOk, None, Some, flat_map, length, map, slice_get, zip};
ghost use Rattle.eq_net.specs.Meaning.{if_there};
ghost use Rattle.eq_net.specs.Net.{bits_of};
ghost use Rattle.eq_verilog.specs.Trees.{item_tree, target_tree};
ghost use Rattle.eq_verilog.specs.Designs.{event_bit};
ghost use Rattle.eq_verilog.specs.Expressions.{wire};
ghost use Rattle.eq_analysis.specs.Finding.{scope_of};
ghost use Rattle.eq_flatten.specs.Driving as driving;
ghost use Rattle.eq_flatten.specs.Equating.{AreStarts};
ghost use Rattle.eq_flatten.specs.Owning.{names_in};
ghost use Rattle.eq_layout.specs.Layout.{design_in, AreSound, IsLaidOut};
ghost use Rattle.eq_sequential.specs.inner.Happening.{AddsEvent, AddsEvents, AreBelow};
ghost use Rattle.eq_sequential.specs.inner.Processing.{path_processes, processes_in, AreAlwaysReady, ArePathsRunning, IsAlwaysReady, IsEvent, IsPathRunning};

use crate::paths::{is_narrow, owned_at};
use eq_base::Memory;
use eq_flatten::{Owned, Path, add_target, number_in};
use eq_layout::Layout;
use eq_names::{Name, NameTable};
use eq_net::{BitName, BitNames, NetInfo};
use eq_verilog::laws::offsets_by_path;
use eq_vparse::{Item, Target};
use std::alloc::Global;

/// Of each always item the bit at whose edge it runs.
pub fn all_events(alloc: Global, layout: &Layout, top: &Name) -> Result<Vec<Option<u32>>, Memory>
    requires laid { IsLaidOut top.now layout.now }
    requires sound { AreSound top.now layout.now }
    ensures ok { IfOk result (λ events.
        events.items ≡ map event_bit (design_in layout.now top.now).processes) }
    ensures there { IfOk result (λ events.
        All (λ e. IfSome e (λ b. b < bits_of layout.now.flat.nets.items)) events.items) }
{
    offsets_by_path();
    is_narrow(layout.starts.bits);
    let mut events = Vec::new(alloc);
    add_paths(
        alloc,
        layout.found.paths.as_slice(),
        layout.owned.as_slice(),
        layout.flat.firsts.as_slice(),
        layout.flat.nets.as_slice(),
        layout.starts.starts.as_slice(),
        &mut events,
    )?;
    Ok(events)
}

/// The events of all instances.
fn add_paths(
    alloc: Global,
    paths: &[Path],
    owned: &[Owned],
    firsts: &[u32],
    nets: &[NetInfo],
    starts: &[u32],
    events: &mut Vec<Option<u32>>,
) -> Result<(), Memory>
    requires size { length firsts.now ≡ length paths.now }
    requires ready { ArePathsRunning nets.now (map names_in owned.now) (zip paths.now firsts.now) }
    requires starts { AreStarts nets.now starts.now }
    requires few { bits_of nets.now < 2 ^ 32 }
    ensures { OnOk result (AddsEvents (bits_of nets.now) events.old.items events.new.items
        (flat_map (path_processes nets.now (map names_in owned.now))
        (zip paths.now firsts.now))) }
{
    for place in 0..paths.len() {
        add_path(
            alloc,
            &paths[place],
            owned,
            firsts[place],
            nets,
            starts,
            events,
        )?;
    }
    Ok(())
}

/// The events of an instance.
fn add_path(
    alloc: Global,
    path: &Path,
    owned: &[Owned],
    from: u32,
    nets: &[NetInfo],
    starts: &[u32],
    events: &mut Vec<Option<u32>>,
) -> Result<(), Memory>
    requires ready { IsPathRunning nets.now (map names_in owned.now) (path.now, from) }
    requires starts { AreStarts nets.now starts.now }
    requires few { bits_of nets.now < 2 ^ 32 }
    ensures { OnOk result (AddsEvents (bits_of nets.now) events.old.items events.new.items
        (path_processes nets.now (map names_in owned.now) (path.now, from))) }
{
    match owned_at(owned, path.of.place) {
        Some(of) => add_module(
            alloc,
            path.of.module.items.as_slice(),
            nets,
            &of.names,
            from,
            starts,
            events,
        ),
        None => Ok(()),
    }
}

/// The events of a module in an instance.
fn add_module(
    alloc: Global,
    items: &[Item],
    nets: &[NetInfo],
    names: &NameTable,
    from: u32,
    starts: &[u32],
    events: &mut Vec<Option<u32>>,
) -> Result<(), Memory>
    requires room { from + length names.now < 2 ^ 32 }
    requires ready { AreAlwaysReady nets.now names.now from (map item_tree items.now) }
    requires starts { AreStarts nets.now starts.now }
    requires few { bits_of nets.now < 2 ^ 32 }
    ensures { OnOk result (AddsEvents (bits_of nets.now) events.old.items events.new.items
        (processes_in (scope_of nets.now names.now from) (map item_tree items.now))) }
{
    for item in items {
        add_item(alloc, item, nets, names, from, starts, events)?;
    }
    Ok(())
}

/// The event of an item, if it is an always item.
fn add_item(
    alloc: Global,
    item: &Item,
    nets: &[NetInfo],
    names: &NameTable,
    from: u32,
    starts: &[u32],
    events: &mut Vec<Option<u32>>,
) -> Result<(), Memory>
    requires room { from + length names.now < 2 ^ 32 }
    requires ready { IsAlwaysReady nets.now names.now from (item_tree item.now) }
    requires starts { AreStarts nets.now starts.now }
    requires few { bits_of nets.now < 2 ^ 32 }
    ensures { OnOk result (AddsEvents (bits_of nets.now) events.old.items events.new.items
        (processes_in (scope_of nets.now names.now from) (item_tree item.now ∷ []))) }
{
    match item {
        Item::Always { clock, .. } => add_event(alloc, clock, nets, names, from, starts, events),
        Item::Decl { .. } => Ok(()),
        Item::Assign { .. } => Ok(()),
        Item::Gate { .. } => Ok(()),
        Item::Instance { .. } => Ok(()),
        Item::Init { .. } => Ok(()),
    }
}

/// An event, behind others.
fn add_event(
    alloc: Global,
    clock: &Target,
    nets: &[NetInfo],
    names: &NameTable,
    from: u32,
    starts: &[u32],
    events: &mut Vec<Option<u32>>,
) -> Result<(), Memory>
    requires room { from + length names.now < 2 ^ 32 }
    requires event { IsEvent nets.now names.now from (target_tree clock.now) }
    requires starts { AreStarts nets.now starts.now }
    requires few { bits_of nets.now < 2 ^ 32 }
    ensures { OnOk result (AddsEvent (bits_of nets.now) (scope_of nets.now names.now from)
        (target_tree clock.now) events.old.items events.new.items) }
{
    let bit = event_of(alloc, clock, nets, names, from, starts)?;
    events.push(bit)?;
    Ok(())
}

/// The bit at position 0 of a target.
fn event_of(
    alloc: Global,
    clock: &Target,
    nets: &[NetInfo],
    names: &NameTable,
    from: u32,
    starts: &[u32],
) -> Result<Option<u32>, Memory>
    requires room { from + length names.now < 2 ^ 32 }
    requires event { IsEvent nets.now names.now from (target_tree clock.now) }
    requires starts { AreStarts nets.now starts.now }
    requires few { bits_of nets.now < 2 ^ 32 }
    ensures bit { IfOk result (λ e.
        e ≡ wire (scope_of nets.now names.now from) (target_tree clock.now) 0) }
    ensures there { IfOk result (λ e. IfSome e (λ b. b < bits_of nets.now)) }
{
    let mut bits = BitNames::new(alloc);
    add_target(alloc, &mut bits, clock, nets, names, from)?;
    Ok(first_of(bits.as_slice(), starts))
}

/// The number of the first of some bits.
fn first_of(bits: &[BitName], starts: &[u32]) -> Option<u32>
    requires { All (λ b. (b.net < length starts.now) × (driving.number_in starts.now b < 2 ^ 32))
        bits.now }
    ensures { result ≡
        if_there None (λ b. Some (driving.number_in starts.now b)) (slice_get bits.now 0) }
{
    if bits.is_empty() {
        None
    } else {
        Some(number_in(starts, bits[0]))
    }
}

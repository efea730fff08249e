//! The slots of a whole design: what drives each bit, of the equations of all instances' items and connections.

ghost use Rattle.std.specs.Prelude.{◌≡◌, ◌+◌, ◌≤◌, ◌<◌, ◌^◌, None, Some, All, IfOk, OnOk, length, map, replicate, sum_by, zip};
ghost use Rattle.eq_net.specs.Meaning.{cost_of};
ghost use Rattle.eq_net.specs.Net.{bits_of, AreWords};
ghost use Rattle.eq_net.specs.Nets.{net_of};
ghost use Rattle.eq_net.specs.Tree.{trees_of};
ghost use Rattle.eq_verilog.specs.Trees.{ModuleTree};
ghost use Rattle.eq_verilog.specs.Declarations.{nets_in};
ghost use Rattle.eq_verilog.specs.Designs.{flat_of};
ghost use Rattle.eq_verilog.specs.Firsts.{first_again, first_of};
ghost use Rattle.eq_verilog.specs.Hierarchy.{module_named, reached};
ghost use Rattle.eq_verilog.specs.Nets.{full_names};
ghost use Rattle.eq_verilog.specs.Refusals.{module_faults};
ghost use Rattle.eq_analysis.specs.Tabling.{trees_at};
ghost use Rattle.eq_flatten.specs.declared.driving.Slot.TheVariants.{Free};
ghost use Rattle.eq_flatten.specs.Equating.{AddsEquations, AreDriven, AreStarts};
ghost use Rattle.eq_flatten.specs.Flat.{IsFlat};
ghost use Rattle.eq_flatten.specs.Flattening.{ArePathsReady};
ghost use Rattle.eq_flatten.specs.Joining.{AreLinksReady};
ghost use Rattle.eq_flatten.specs.Owning.{names_in};
ghost use Rattle.eq_flatten.specs.Paths.{top_path, HasPaths};
ghost use Rattle.eq_flatten.specs.Rendering.{KeepsFront};
ghost use Rattle.eq_flatten.specs.Spelled.{IsModuleSpelled};
ghost use Rattle.eq_flatten.specs.Summing.{by_tables, cost_by_tables};

use crate::driving::Slot;
use crate::flat::FlatNets;
use crate::flattening::add_paths;
use crate::joining::add_links;
use crate::owning::Owned;
use crate::paths::{Link, Path, Paths};
use eq_analysis::Table;
use eq_base::Memory;
use eq_names::Name;
use eq_net::{NetInfo, Words};
use eq_verilog::laws::offsets_by_path;
use std::alloc::Global;

/// What drives each bit of the design with this top, where no module that is reached is refused and no two nets have one
/// full name. `bits` is the number of all bits, and `starts` has that of each net's first.
pub fn all_slots(
    alloc: Global,
    top: &Name,
    found: &Paths,
    tables: &[Table],
    owned: &[Owned],
    flat: &FlatNets,
    starts: &[u32],
    bits: u32,
    words: &mut Words,
) -> Result<Vec<Slot>, Memory>
    requires names { map names_in owned.now ≡ map nets_in (trees_at tables.now) }
    requires paths { (m : ModuleTree) → module_named (trees_at tables.now) top.now ≡ Some m →
        HasPaths (trees_at tables.now) (top_path m) found.now }
    requires flat { IsFlat found.now.paths.items (length found.now.paths.items)
        flat.now.nets.items flat.now.firsts.items }
    requires faultless { first_of (module_faults (trees_at tables.now) top.now
        (reached (trees_at tables.now) top.now)) ≡ None }
    requires apart { first_again (full_names (map net_of flat.now.nets.items)) ≡ None }
    requires spelled { All IsModuleSpelled (trees_at tables.now) }
    requires starts { AreStarts flat.now.nets.items starts.now }
    requires bits { bits ≡ bits_of flat.now.nets.items }
    ensures size { IfOk result (λ slots. length slots.items ≡ bits_of flat.now.nets.items) }
    ensures driven { IfOk result (λ slots. AreDriven flat.now.nets.items (trees_of words.new)
        (flat_of (trees_at tables.now) top.now).equations slots.items) }
    ensures kept { OnOk result (KeepsFront (trees_of words.old) (trees_of words.new)) }
    ensures words { OnOk result (AreWords flat.now.nets.items (trees_of words.old) →
        AreWords flat.now.nets.items (trees_of words.new)) }
    ensures costs { OnOk result (sum_by cost_of (trees_of words.new) ≤
        sum_by cost_of (trees_of words.old) + cost_by_tables flat.now.nets.items
        (map names_in owned.now) found.now.paths.items found.now.links.items
        flat.now.firsts.items) }
{
    offsets_by_path();
    let slots = slots_of(
        alloc,
        found.paths.as_slice(),
        found.links.as_slice(),
        flat.firsts.as_slice(),
        tables,
        owned,
        flat.nets.as_slice(),
        starts,
        bits,
        words,
    )?;
    Ok(slots)
}

/// The slots of these paths and links, all of which are ready.
fn slots_of(
    alloc: Global,
    paths: &[Path],
    links: &[Link],
    firsts: &[u32],
    tables: &[Table],
    owned: &[Owned],
    nets: &[NetInfo],
    starts: &[u32],
    bits: u32,
    words: &mut Words,
) -> Result<Vec<Slot>, Memory>
    requires size { length firsts.now ≡ length paths.now }
    requires paths { ArePathsReady nets.now (map names_in owned.now) (zip paths.now firsts.now) }
    requires links { AreLinksReady nets.now (trees_at tables.now) (map names_in owned.now)
        (zip paths.now firsts.now) 1 links.now }
    requires starts { AreStarts nets.now starts.now }
    requires bits { bits ≡ bits_of nets.now }
    ensures { IfOk result (λ slots. AddsEquations nets.now (trees_of words.old) (trees_of words.new)
        (replicate bits Free) slots.items
        (by_tables nets.now (map names_in owned.now) paths.now links.now firsts.now)
        (cost_by_tables nets.now (map names_in owned.now) paths.now links.now firsts.now)) }
{
    let mut slots = free_slots(alloc, bits as usize)?;
    add_all(
        alloc,
        paths,
        links,
        firsts,
        tables,
        owned,
        nets,
        starts,
        words,
        slots.as_mut_slice(),
    )?;
    Ok(slots)
}

/// A slot for each bit, none of which has an equation.
fn free_slots(alloc: Global, size: usize) -> Result<Vec<Slot>, Memory>
    ensures { IfOk result (λ slots. slots.items ≡ replicate size Free) }
{
    vec![in alloc; Slot::Free; size]
}

/// The equations of the items of all paths, and of the connections of all links.
fn add_all(
    alloc: Global,
    paths: &[Path],
    links: &[Link],
    firsts: &[u32],
    tables: &[Table],
    owned: &[Owned],
    nets: &[NetInfo],
    starts: &[u32],
    words: &mut Words,
    slots: &mut [Slot],
) -> Result<(), Memory>
    requires size { length firsts.now ≡ length paths.now }
    requires paths { ArePathsReady nets.now (map names_in owned.now) (zip paths.now firsts.now) }
    requires links { AreLinksReady nets.now (trees_at tables.now) (map names_in owned.now)
        (zip paths.now firsts.now) 1 links.now }
    requires starts { AreStarts nets.now starts.now }
    requires slots { length slots.old ≡ bits_of nets.now }
    requires few { bits_of nets.now < 2 ^ 32 }
    ensures { OnOk result (AddsEquations nets.now (trees_of words.old) (trees_of words.new)
        slots.old slots.new
        (by_tables nets.now (map names_in owned.now) paths.now links.now firsts.now)
        (cost_by_tables nets.now (map names_in owned.now) paths.now links.now firsts.now)) }
{
    add_paths(alloc, paths, owned, firsts, nets, starts, words, slots)?;
    add_links(
        alloc, links, paths, firsts, tables, owned, nets, starts, words, slots,
    )?;
    Ok(())
}

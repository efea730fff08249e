//! The equations of a whole design: of each instance what its items drive by themselves, and of each link its connections.

ghost use Rattle.std.specs.Prelude.{◌≡◌, ◌<◌, ◌^◌, OnOk, flat_map, length, map, sum_by, zip};
ghost use Rattle.eq_net.specs.Net.{bits_of};
ghost use Rattle.eq_net.specs.Tree.{trees_of};
ghost use Rattle.eq_flatten.specs.Equating.{AddsEquations, AreStarts};
ghost use Rattle.eq_flatten.specs.Flattening.{path_cost, path_equations, ArePathsReady, IsPathReady};
ghost use Rattle.eq_flatten.specs.Owning.{names_in};

use crate::driving::Slot;
use crate::items::add_module;
use crate::owning::{Owned, owned_at};
use crate::paths::Path;
use eq_base::Memory;
use eq_net::{NetInfo, Words};
use std::alloc::Global;

/// What the items of an instance drive by themselves.
fn add_path(
    alloc: Global,
    path: &Path,
    owned: &[Owned],
    from: u32,
    nets: &[NetInfo],
    starts: &[u32],
    words: &mut Words,
    slots: &mut [Slot],
) -> Result<(), Memory>
    requires ready { IsPathReady nets.now (map names_in owned.now) (path.now, from) }
    requires starts { AreStarts nets.now starts.now }
    requires slots { length slots.old ≡ bits_of nets.now }
    requires few { bits_of nets.now < 2 ^ 32 }
    ensures { OnOk result (AddsEquations nets.now (trees_of words.old) (trees_of words.new)
        slots.old slots.new
        (path_equations nets.now (map names_in owned.now) (path.now, from))
        (path_cost nets.now (map names_in owned.now) (path.now, from))) }
{
    match owned_at(owned, path.of.place) {
        Some(of) => add_module(
            alloc,
            path.of.module.items.as_slice(),
            nets,
            &of.names,
            from,
            starts,
            words,
            slots,
        ),
        None => Ok(()),
    }
}

/// What the items of all instances drive by themselves.
pub fn add_paths(
    alloc: Global,
    paths: &[Path],
    owned: &[Owned],
    firsts: &[u32],
    nets: &[NetInfo],
    starts: &[u32],
    words: &mut Words,
    slots: &mut [Slot],
) -> Result<(), Memory>
    requires size { length firsts.now ≡ length paths.now }
    requires ready { ArePathsReady nets.now (map names_in owned.now) (zip paths.now firsts.now) }
    requires starts { AreStarts nets.now starts.now }
    requires slots { length slots.old ≡ bits_of nets.now }
    requires few { bits_of nets.now < 2 ^ 32 }
    ensures { OnOk result (AddsEquations nets.now (trees_of words.old) (trees_of words.new)
        slots.old slots.new
        (flat_map (path_equations nets.now (map names_in owned.now)) (zip paths.now firsts.now))
        (sum_by (path_cost nets.now (map names_in owned.now)) (zip paths.now firsts.now))) }
{
    for place in 0..paths.len() {
        add_path(
            alloc,
            &paths[place],
            owned,
            firsts[place],
            nets,
            starts,
            words,
            slots,
        )?;
    }
    Ok(())
}

//! The initial values of all instances: which constant begins each bit, and at which of its positions.

ghost use Rattle.std.specs.Prelude.{◌≡◌, ◌<◌, ◌^◌, [], IfOk, flat_map, length, map, replicate, zip};
ghost use Rattle.eq_net.specs.Net.{bits_of};
ghost use Rattle.eq_flatten.specs.declared.driving.Slot.TheVariants.{Free};
ghost use Rattle.eq_flatten.specs.Beginning.{path_initials, AddsInitials, AreBegun, ArePathsBegun};
ghost use Rattle.eq_flatten.specs.Equating.{AreStarts};
ghost use Rattle.eq_flatten.specs.Owning.{names_in};
ghost use Rattle.eq_layout.specs.Layout.{design_in, AreSound, IsLaidOut};

use crate::paths::is_narrow;
use eq_base::Memory;
use eq_flatten::{Owned, Path, Slot, add_initials};
use eq_layout::Layout;
use eq_names::Name;
use eq_net::NetInfo;
use eq_verilog::laws::offsets_by_path;
use eq_vlex::Constant;
use std::alloc::Global;

/// The initial values of a design: their constants, and what begins each bit. A slot's word is the number of a
/// constant.
#[derive(Drop)]
pub struct Begun {
    pub constants: Vec<Constant>,
    pub slots: Vec<Slot>,
}

/// The initial values of a design that is laid out.
pub fn all_initials(alloc: Global, layout: &Layout, top: &Name) -> Result<Begun, Memory>
    requires laid { IsLaidOut top.now layout.now }
    requires sound { AreSound top.now layout.now }
    ensures size { IfOk result (λ begun.
        length begun.slots.items ≡ bits_of layout.now.flat.nets.items) }
    ensures begun { IfOk result (λ begun. AreBegun begun.constants.items
        (design_in layout.now top.now).initials begun.slots.items) }
{
    offsets_by_path();
    is_narrow(layout.starts.bits);
    let begun = begun_of(
        alloc,
        layout.found.paths.as_slice(),
        layout.owned.as_slice(),
        layout.flat.firsts.as_slice(),
        layout.flat.nets.as_slice(),
        layout.starts.starts.as_slice(),
        layout.starts.bits,
    )?;
    Ok(begun)
}

/// The initial values of these paths, all of which are ready.
fn begun_of(
    alloc: Global,
    paths: &[Path],
    owned: &[Owned],
    firsts: &[u32],
    nets: &[NetInfo],
    starts: &[u32],
    bits: u32,
) -> Result<Begun, Memory>
    requires size { length firsts.now ≡ length paths.now }
    requires ready { ArePathsBegun nets.now (map names_in owned.now) (zip paths.now firsts.now) }
    requires starts { AreStarts nets.now starts.now }
    requires bits { bits ≡ bits_of nets.now }
    ensures { IfOk result (λ begun. AddsInitials [] begun.constants.items (replicate bits Free)
        begun.slots.items (flat_map (path_initials nets.now (map names_in owned.now))
        (zip paths.now firsts.now))) }
{
    let mut constants = Vec::new(alloc);
    let mut slots = free_slots(alloc, bits as usize)?;
    add_initials(
        alloc,
        paths,
        owned,
        firsts,
        nets,
        starts,
        &mut constants,
        slots.as_mut_slice(),
    )?;
    Ok(Begun { constants, slots })
}

/// A slot for each bit, none of which is set.
pub fn free_slots(alloc: Global, size: usize) -> Result<Vec<Slot>, Memory>
    ensures { IfOk result (λ slots. slots.items ≡ replicate size Free) }
{
    vec![in alloc; Slot::Free; size]
}

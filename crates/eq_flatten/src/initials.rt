//! The initial values of registers' bits: which constant begins each bit, and at which of its positions.

ghost use Rattle.std.specs.Prelude.{◌≡◌, ◌+◌, ◌++◌, ◌∷◌, ◌<◌, ◌^◌, [], ℕ, List, Some, None, IfOk, OnOk, flat_map, length, map, slice_get, zip};
ghost use Rattle.eq_vlex.specs.declared.token.Constant.{Constant as ConstantValue};
ghost use Rattle.eq_net.specs.declared.types.WordBit.{WordBit as WordBitValue};
ghost use Rattle.eq_net.specs.Net.{bits_of};
ghost use Rattle.eq_net.specs.Numbers.{digit};
ghost use Rattle.eq_verilog.specs.Registers.{Initial, begins};
ghost use Rattle.eq_verilog.specs.Trees.{item_tree, target_tree};
ghost use Rattle.eq_analysis.specs.Finding.{scope_of};
ghost use Rattle.eq_flatten.specs.declared.driving.Slot.TheVariants as slot;
ghost use Rattle.eq_flatten.specs.Beginning.{initials_in, path_initials, AddsInitials, AreInitialsReady, ArePathsBegun, IsInitialReady, IsPathBegun, SlotBegins};
ghost use Rattle.eq_flatten.specs.Equating.{AreStarts};
ghost use Rattle.eq_flatten.specs.Items.{IsTarget};
ghost use Rattle.eq_flatten.specs.Owning.{names_in};

use crate::driving::{Slot, drive};
use crate::owning::{Owned, owned_at};
use crate::paths::Path;
use crate::target_bits::add_target;
use crate::words::narrow;
use eq_base::Memory;
use eq_names::NameTable;
use eq_net::{BitNames, NetInfo};
use eq_vlex::Constant;
use eq_vparse::{Item, Target};
use std::alloc::Global;

/// Puts a constant behind others, and tells its number.
fn add_constant(value: Constant, constants: &mut Vec<Constant>) -> Result<u32, Memory>
    ensures number { IfOk result (λ number. number ≡ length constants.old.items) }
    ensures added { OnOk result (constants.new.items ≡ constants.old.items ++ value ∷ []) }
{
    let number = narrow(constants.len())?;
    constants.push(value)?;
    Ok(number)
}

/// What an initial value begins.
fn add_initial(
    alloc: Global,
    target: &Target,
    value: Constant,
    nets: &[NetInfo],
    names: &NameTable,
    from: u32,
    starts: &[u32],
    constants: &mut Vec<Constant>,
    slots: &mut [Slot],
) -> Result<(), Memory>
    requires room { from + length names.now < 2 ^ 32 }
    requires target { IsTarget nets.now names.now from (target_tree target.now) }
    requires starts { AreStarts nets.now starts.now }
    requires slots { length slots.old ≡ bits_of nets.now }
    requires few { bits_of nets.now < 2 ^ 32 }
    ensures { OnOk result (AddsInitials constants.old.items constants.new.items slots.old slots.new
        (record {
          scope = scope_of nets.now names.now from;
          target = target_tree target.now;
          value = value;
        } ∷ [])) }
{
    let mut bits = BitNames::new(alloc);
    add_target(alloc, &mut bits, target, nets, names, from)?;
    let _count = narrow(bits.len())?;
    let number = add_constant(value, constants)?;
    drive(slots, starts, bits.as_slice(), number);
    Ok(())
}

/// What an item begins.
fn add_item(
    alloc: Global,
    item: &Item,
    nets: &[NetInfo],
    names: &NameTable,
    from: u32,
    starts: &[u32],
    constants: &mut Vec<Constant>,
    slots: &mut [Slot],
) -> Result<(), Memory>
    requires room { from + length names.now < 2 ^ 32 }
    requires ready { IsInitialReady nets.now names.now from (item_tree item.now) }
    requires starts { AreStarts nets.now starts.now }
    requires slots { length slots.old ≡ bits_of nets.now }
    requires few { bits_of nets.now < 2 ^ 32 }
    ensures { OnOk result (AddsInitials constants.old.items constants.new.items slots.old slots.new
        (initials_in (scope_of nets.now names.now from) (item_tree item.now ∷ []))) }
{
    match item {
        Item::Init { target, value } => add_initial(
            alloc, target, *value, nets, names, from, starts, constants, slots,
        ),
        Item::Decl { .. } => Ok(()),
        Item::Assign { .. } => Ok(()),
        Item::Gate { .. } => Ok(()),
        Item::Instance { .. } => Ok(()),
        Item::Always { .. } => Ok(()),
    }
}

/// What the items of a module begin in an instance.
fn add_module(
    alloc: Global,
    items: &[Item],
    nets: &[NetInfo],
    names: &NameTable,
    from: u32,
    starts: &[u32],
    constants: &mut Vec<Constant>,
    slots: &mut [Slot],
) -> Result<(), Memory>
    requires room { from + length names.now < 2 ^ 32 }
    requires ready { AreInitialsReady nets.now names.now from (map item_tree items.now) }
    requires starts { AreStarts nets.now starts.now }
    requires slots { length slots.old ≡ bits_of nets.now }
    requires few { bits_of nets.now < 2 ^ 32 }
    ensures { OnOk result (AddsInitials constants.old.items constants.new.items slots.old slots.new
        (initials_in (scope_of nets.now names.now from) (map item_tree items.now))) }
{
    for item in items {
        add_item(alloc, item, nets, names, from, starts, constants, slots)?;
    }
    Ok(())
}

/// What the items of an instance begin.
fn add_path(
    alloc: Global,
    path: &Path,
    owned: &[Owned],
    from: u32,
    nets: &[NetInfo],
    starts: &[u32],
    constants: &mut Vec<Constant>,
    slots: &mut [Slot],
) -> Result<(), Memory>
    requires ready { IsPathBegun nets.now (map names_in owned.now) (path.now, from) }
    requires starts { AreStarts nets.now starts.now }
    requires slots { length slots.old ≡ bits_of nets.now }
    requires few { bits_of nets.now < 2 ^ 32 }
    ensures { OnOk result (AddsInitials constants.old.items constants.new.items slots.old slots.new
        (path_initials nets.now (map names_in owned.now) (path.now, from))) }
{
    match owned_at(owned, path.of.place) {
        Some(of) => add_module(
            alloc,
            path.of.module.items.as_slice(),
            nets,
            &of.names,
            from,
            starts,
            constants,
            slots,
        ),
        None => Ok(()),
    }
}

/// What the items of all instances begin.
pub fn add_initials(
    alloc: Global,
    paths: &[Path],
    owned: &[Owned],
    firsts: &[u32],
    nets: &[NetInfo],
    starts: &[u32],
    constants: &mut Vec<Constant>,
    slots: &mut [Slot],
) -> Result<(), Memory>
    requires size { length firsts.now ≡ length paths.now }
    requires ready { ArePathsBegun nets.now (map names_in owned.now) (zip paths.now firsts.now) }
    requires starts { AreStarts nets.now starts.now }
    requires slots { length slots.old ≡ bits_of nets.now }
    requires few { bits_of nets.now < 2 ^ 32 }
    ensures { OnOk result (AddsInitials constants.old.items constants.new.items slots.old slots.new
        (flat_map (path_initials nets.now (map names_in owned.now)) (zip paths.now firsts.now))) }
{
    for place in 0..paths.len() {
        add_path(
            alloc,
            &paths[place],
            owned,
            firsts[place],
            nets,
            starts,
            constants,
            slots,
        )?;
    }
    Ok(())
}

/// A bit whose slot is free has no initial value; one that is begun once has the bit of the constant. The proof stands in
/// proofs/BeginningLemmas.antt.
pub fn initial_by_slot()
    ensures none { (constants : List ConstantValue) (is : List Initial) (b : ℕ) →
        SlotBegins constants is b slot.Free → begins is b ≡ None }
    ensures one { (constants : List ConstantValue) (is : List Initial) (b : ℕ) (w : WordBitValue)
        (c : ConstantValue) → SlotBegins constants is b (slot.Once w) →
        slice_get constants w.word ≡ Some c → begins is b ≡ Some (digit c.value w.bit) }
{}

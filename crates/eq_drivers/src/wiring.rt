//! The drivers of all bits, net by net.

ghost use Rattle.std.specs.Prelude.{◌≡◌, ◌+◌, ◌≤◌, ◌<◌, ◌^◌, None, List, IfOk, OnOk, length, sum_by};
ghost use Rattle.eq_net.specs.declared.types.NetInfo.{NetInfo as NetInfoValue};
ghost use Rattle.eq_net.specs.Meaning.{cost_of};
ghost use Rattle.eq_net.specs.Net.{bits_of, number_of, offset, AreWords, HasBit};
ghost use Rattle.eq_net.specs.Nets.{side_of};
ghost use Rattle.eq_net.specs.Tree.{trees_of, Tree};
ghost use Rattle.eq_verilog.specs.BitRefusals.{has_two_drivers};
ghost use Rattle.eq_verilog.specs.Declarations as declarations;
ghost use Rattle.eq_verilog.specs.Designs.{Flat};
ghost use Rattle.eq_verilog.specs.Equations.{Equation};
ghost use Rattle.eq_verilog.specs.Firsts.{first_below};
ghost use Rattle.eq_verilog.specs.Registers.{Process};
ghost use Rattle.eq_flatten.specs.declared.driving.Slot.{Slot as SlotValue};
ghost use Rattle.eq_flatten.specs.Equating.{AreDriven};
ghost use Rattle.eq_flatten.specs.Rendering.{KeepsFront};
ghost use Rattle.eq_sequential.specs.Setting.{AreFollowed};
ghost use Rattle.eq_drivers.specs.Telling.{AreRegs, Tell};
ghost use Rattle.eq_drivers.specs.Wiring.{AreTold};
ghost use Rattle.eq_drivers.specs.inner.Choosing.{comes_from_outside, AreChosen, Grows, IsChosen};

use crate::choosing::choose;
use crate::slots::Slots;
use eq_base::Memory;
use eq_flatten::words_render;
use eq_net::laws::bits_stand_by_nets;
use eq_net::{BitName, Dir, Driver, NetInfo, Words};
use std::alloc::Global;

fn comes_in(dir: Dir) -> bool
    ensures { result ≡ declarations.comes_in (side_of dir) }
{
    match dir {
        Dir::Inner => false,
        Dir::Input => true,
        Dir::Output => false,
    }
}

/// The driver of the bit of a number and a name.
fn choose_at(
    alloc: Global,
    name: BitName,
    bit: usize,
    outside: bool,
    nets: &[NetInfo],
    flags: &[bool],
    slots: &Slots,
    words: &mut Words,
) -> Result<Driver, Memory>
    requires there { HasBit nets.now name }
    requires number { number_of nets.now name ≡ bit }
    requires outside { outside ≡ comes_from_outside nets.now bit }
    requires flags { bit < length flags.now }
    requires driven { bit < length slots.now.driven.items }
    requires followed { bit < length slots.now.followed.items }
    requires begun { bit < length slots.now.begun.items }
    requires words { AreWords nets.now (trees_of words.old) }
    ensures grows { OnOk result (Grows nets.now (trees_of words.old) (trees_of words.new)) }
    ensures chosen { IfOk result (IsChosen nets.now (trees_of words.new) flags.now slots.now bit) }
{
    choose(
        alloc,
        name,
        flags[bit],
        outside,
        &slots.constants,
        slots.driven[bit],
        slots.followed[bit],
        slots.begun[bit],
        nets,
        words,
    )
}

/// The drivers of the bits of a net, behind those of the nets before it.
fn add_net(
    alloc: Global,
    net: usize,
    nets: &[NetInfo],
    flags: &[bool],
    slots: &Slots,
    words: &mut Words,
    drivers: &mut Vec<Driver>,
) -> Result<(), Memory>
    requires there { net < length nets.now }
    requires few { bits_of nets.now < 2 ^ 32 }
    requires flags { length flags.now ≡ bits_of nets.now }
    requires driven { length slots.now.driven.items ≡ bits_of nets.now }
    requires followed { length slots.now.followed.items ≡ bits_of nets.now }
    requires begun { length slots.now.begun.items ≡ bits_of nets.now }
    requires words { AreWords nets.now (trees_of words.old) }
    requires size { length drivers.old.items ≡ offset nets.now net }
    requires chosen { AreChosen nets.now (trees_of words.old) flags.now slots.now
        drivers.old.items }
    ensures size { OnOk result (length drivers.new.items ≡ offset nets.now (net + 1)) }
    ensures grows { OnOk result (Grows nets.now (trees_of words.old) (trees_of words.new)) }
    ensures chosen { OnOk result (AreChosen nets.now (trees_of words.new) flags.now slots.now
        drivers.new.items) }
{
    bits_stand_by_nets();
    let outside = comes_in(nets[net].dir);
    for bit in 0..nets[net].width() {
        let name = BitName {
            net: net as u32,
            bit: bit as u32,
        };
        let at = drivers.len();
        let driver = choose_at(alloc, name, at, outside, nets, flags, slots, words)?;
        drivers.push(driver)?;
    }
    Ok(())
}

/// The drivers of the bits of all nets.
fn add_nets(
    alloc: Global,
    nets: &[NetInfo],
    flags: &[bool],
    slots: &Slots,
    words: &mut Words,
) -> Result<Vec<Driver>, Memory>
    requires few { bits_of nets.now < 2 ^ 32 }
    requires flags { length flags.now ≡ bits_of nets.now }
    requires driven { length slots.now.driven.items ≡ bits_of nets.now }
    requires followed { length slots.now.followed.items ≡ bits_of nets.now }
    requires begun { length slots.now.begun.items ≡ bits_of nets.now }
    requires words { AreWords nets.now (trees_of words.old) }
    ensures size { IfOk result (λ drivers. length drivers.items ≡ bits_of nets.now) }
    ensures grows { OnOk result (Grows nets.now (trees_of words.old) (trees_of words.new)) }
    ensures chosen { IfOk result (λ drivers. AreChosen nets.now (trees_of words.new) flags.now
        slots.now drivers.items) }
{
    bits_stand_by_nets();
    let mut drivers = Vec::new(alloc);
    for net in 0..nets.len() {
        add_net(alloc, net, nets, flags, slots, words, &mut drivers)?;
    }
    Ok(drivers)
}

/// The driver of each bit. A register that no always item sets keeps its value by a word that reads it.
pub fn drivers(
    alloc: Global,
    nets: &[NetInfo],
    flags: &[bool],
    slots: &Slots,
    words: &mut Words,
) -> Result<Vec<Driver>, Memory>
    requires words { AreWords nets.now (trees_of words.old) }
    requires few { bits_of nets.now < 2 ^ 32 }
    requires flags { length flags.now ≡ bits_of nets.now }
    requires driven { length slots.now.driven.items ≡ bits_of nets.now }
    requires followed { length slots.now.followed.items ≡ bits_of nets.now }
    requires begun { length slots.now.begun.items ≡ bits_of nets.now }
    ensures ok { (f : Flat) → Tell nets.now (trees_of words.old) f slots.now →
        AreRegs f flags.now → first_below (bits_of nets.now) (has_two_drivers f) ≡ None →
        IfOk result (λ drivers. AreTold nets.now (trees_of words.new) f drivers.items) }
    ensures kept { OnOk result (KeepsFront (trees_of words.old) (trees_of words.new)) }
    ensures words { OnOk result (AreWords nets.now (trees_of words.new)) }
    ensures costs { OnOk result
        (sum_by cost_of (trees_of words.new) ≤ sum_by cost_of (trees_of words.old)) }
{
    words_render();
    let drivers = add_nets(alloc, nets, flags, slots, words)?;
    Ok(drivers)
}

/// What slots say of words they say of more words as well. The proof stands in proofs/Later.antt.
pub fn slots_of_more_words()
    ensures driven { (nets : List NetInfoValue) (old new : List Tree) (es : List Equation)
        (slots : List SlotValue) → KeepsFront old new → AreWords nets old →
        AreDriven nets old es slots → AreDriven nets new es slots }
    ensures followed { (nets : List NetInfoValue) (old new : List Tree) (ps : List Process)
        (slots : List SlotValue) → KeepsFront old new → AreWords nets old →
        AreFollowed nets old ps slots → AreFollowed nets new ps slots }
{}

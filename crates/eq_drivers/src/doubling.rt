//! The first bit that has two drivers, and the first register without initial value.

ghost use Rattle.std.specs.Prelude.{◌≡◌, ◌<◌, ◌^◌, ◌&&◌, List, is_none, length};
ghost use Rattle.eq_net.specs.declared.types.NetInfo.{NetInfo as NetInfoValue};
ghost use Rattle.eq_net.specs.Net.{bits_of};
ghost use Rattle.eq_net.specs.Tree.{Tree};
ghost use Rattle.eq_verilog.specs.BitRefusals.{has_two_drivers};
ghost use Rattle.eq_verilog.specs.Designs.{Flat, is_reg_bit};
ghost use Rattle.eq_verilog.specs.Firsts.{first_below};
ghost use Rattle.eq_verilog.specs.Registers.{begins};
ghost use Rattle.eq_drivers.specs.Telling.{AreRegs, Tell};
ghost use Rattle.eq_drivers.specs.inner.Doubling as spec;

use crate::slots::Slots;
use eq_flatten::Slot;

fn is_twice(slot: Slot) -> bool
    ensures { result ≡ spec.is_twice slot }
{
    match slot {
        Slot::Free => false,
        Slot::Once(_) => false,
        Slot::Twice => true,
    }
}

fn is_free(slot: Slot) -> bool
    ensures { result ≡ spec.is_free slot }
{
    match slot {
        Slot::Free => true,
        Slot::Once(_) => false,
        Slot::Twice => false,
    }
}

/// Whether one of the tables has two at a bit.
fn is_doubled(driven: &[Slot], followed: &[Slot], begun: &[Slot], bit: usize) -> bool
    requires driven { bit < length driven.now }
    requires followed { bit < length followed.now }
    requires begun { bit < length begun.now }
    ensures { result ≡ spec.is_doubled driven.now followed.now begun.now bit }
{
    is_twice(driven[bit]) || is_twice(followed[bit]) || is_twice(begun[bit])
}

/// The first bit at which one of the tables has two.
fn first_twice(driven: &[Slot], followed: &[Slot], begun: &[Slot]) -> Option<u32>
    requires followed { length followed.now ≡ length driven.now }
    requires begun { length begun.now ≡ length driven.now }
    requires few { length driven.now < 2 ^ 32 }
    ensures { result ≡
        first_below (length driven.now) (spec.is_doubled driven.now followed.now begun.now) }
{
    for bit in 0..driven.len() {
        if is_doubled(driven, followed, begun, bit) {
            return Some(bit as u32);
        }
    }
    None
}

/// The first bit with two drivers: two equations have it, or two always items set it, or two initial values begin it.
pub fn first_doubled(slots: &Slots) -> Option<u32>
    requires followed { length slots.now.followed.items ≡ length slots.now.driven.items }
    requires begun { length slots.now.begun.items ≡ length slots.now.driven.items }
    requires few { length slots.now.driven.items < 2 ^ 32 }
    ensures ok { (nets : List NetInfoValue) (words : List Tree) (f : Flat) →
        Tell nets words f slots.now →
        result ≡ first_below (bits_of nets) (has_two_drivers f) }
{
    first_twice(&slots.driven, &slots.followed, &slots.begun)
}

fn lacks_initial(flags: &[bool], begun: &[Slot], bit: usize) -> bool
    requires flags { bit < length flags.now }
    requires begun { bit < length begun.now }
    ensures { result ≡ spec.lacks_initial flags.now begun.now bit }
{
    flags[bit] && is_free(begun[bit])
}

/// The first flagged bit that no initial value begins.
fn first_lacking(flags: &[bool], begun: &[Slot]) -> Option<u32>
    requires size { length begun.now ≡ length flags.now }
    requires few { length flags.now < 2 ^ 32 }
    ensures { result ≡
        first_below (length flags.now) (spec.lacks_initial flags.now begun.now) }
{
    for bit in 0..flags.len() {
        if lacks_initial(flags, begun, bit) {
            return Some(bit as u32);
        }
    }
    None
}

/// The first bit of a reg that no initial value begins.
pub fn first_without_initial(flags: &[bool], slots: &Slots) -> Option<u32>
    requires size { length slots.now.begun.items ≡ length flags.now }
    requires few { length flags.now < 2 ^ 32 }
    ensures ok { (nets : List NetInfoValue) (words : List Tree) (f : Flat) →
        Tell nets words f slots.now → AreRegs f flags.now →
        result ≡ first_below (bits_of nets) (λ b. is_reg_bit f b && is_none (begins f.initials b)) }
{
    first_lacking(flags, &slots.begun)
}

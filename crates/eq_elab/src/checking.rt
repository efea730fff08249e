//! The conditions on bits that are looked for when all bits have their drivers. What is found of nets, words and drivers is
//! what the definitions say of the design, since both have the same drivers.

ghost use Rattle.std.specs.Prelude.{◌≡◌, ◌<◌, ◌^◌, List, IfOk, length};
ghost use Rattle.eq_net.specs.declared.types.NetInfo.{NetInfo as NetInfoValue};
ghost use Rattle.eq_net.specs.Net.{bits_of};
ghost use Rattle.eq_net.specs.Tree.{trees_of as words_of, Tree};
ghost use Rattle.eq_verilog.specs.BitRefusals as refusals;
ghost use Rattle.eq_verilog.specs.Designs.{clock_bit, Flat};
ghost use Rattle.eq_drivers.specs.Telling.{AreRegs, Tell};
ghost use Rattle.eq_layout.specs.Layout.{design_in, AreSound, IsLaidOut};
ghost use Rattle.eq_elab.specs.inner.Elaborating.{IsFound, IsWired};

use eq_base::Memory;
use eq_drivers::{Slots, first_doubled, first_without_initial};
use eq_layout::Layout;
use eq_marks::laws::bits_by_parts;
use eq_marks::{Edges, edges_of, first_missed, first_taking};
use eq_names::Name;
use eq_net::{Driver, Word};
use eq_sequential::all_events;
use std::alloc::Global;

/// A number of 32 bits is below their limit, of which the search needs to be told.
pub fn is_narrow(bits: u32)
    ensures { bits < 2 ^ 32 }
{}

/// The first bit with two drivers.
pub fn doubled_bit(slots: &Slots) -> Option<u32>
    requires followed { length slots.now.followed.items ≡ length slots.now.driven.items }
    requires begun { length slots.now.begun.items ≡ length slots.now.driven.items }
    requires few { length slots.now.driven.items < 2 ^ 32 }
    ensures { (nets : List NetInfoValue) (words : List Tree) (f : Flat) → Tell nets words f slots.now →
        IsFound f (refusals.two_drivers f) (bits_of nets) result }
{
    first_doubled(slots)
}

/// The first bit of a register without initial value.
pub fn unbegun_bit(flags: &[bool], slots: &Slots) -> Option<u32>
    requires size { length slots.now.begun.items ≡ length flags.now }
    requires few { length flags.now < 2 ^ 32 }
    ensures { (nets : List NetInfoValue) (words : List Tree) (f : Flat) → Tell nets words f slots.now →
        AreRegs f flags.now → IsFound f (refusals.no_init f) (bits_of nets) result }
{
    first_without_initial(flags, slots)
}

/// The first bit without driver that is needed.
pub fn undriven_bit(
    alloc: Global,
    layout: &Layout,
    top: &Name,
    words: &[Word],
    drivers: &[Driver],
) -> Result<Option<u32>, Memory>
    requires laid { IsLaidOut top.now layout.now }
    requires wired { IsWired layout.now top.now (words_of words.now) drivers.now }
    ensures { IfOk result (IsFound (design_in layout.now top.now)
        (refusals.undriven_bit (design_in layout.now top.now)) (bits_of layout.now.flat.nets.items)) }
{
    bits_by_parts();
    is_narrow(layout.starts.bits);
    first_missed(alloc, &layout.flat.nets, words, drivers)
}

/// The clock, and the first event that is none of its edges.
pub fn edges(
    alloc: Global,
    layout: &Layout,
    top: &Name,
    words: &[Word],
    drivers: &[Driver],
) -> Result<Edges, Memory>
    requires laid { IsLaidOut top.now layout.now }
    requires sound { AreSound top.now layout.now }
    requires wired { IsWired layout.now top.now (words_of words.now) drivers.now }
    ensures clock { IfOk result (λ edges. edges.clock ≡ clock_bit (design_in layout.now top.now)) }
    ensures astray { IfOk result (λ edges. IsFound (design_in layout.now top.now)
        (refusals.two_clocks (design_in layout.now top.now)) (bits_of layout.now.flat.nets.items)
        edges.astray) }
{
    bits_by_parts();
    is_narrow(layout.starts.bits);
    let events = all_events(alloc, layout, top)?;
    edges_of(alloc, &layout.flat.nets, words, drivers, &events)
}

/// The first bit that takes the clock as data.
pub fn clock_as_data(
    alloc: Global,
    layout: &Layout,
    top: &Name,
    words: &[Word],
    drivers: &[Driver],
    clock: Option<u32>,
) -> Result<Option<u32>, Memory>
    requires laid { IsLaidOut top.now layout.now }
    requires wired { IsWired layout.now top.now (words_of words.now) drivers.now }
    requires clock { clock ≡ clock_bit (design_in layout.now top.now) }
    ensures { IfOk result (IsFound (design_in layout.now top.now)
        (refusals.clock_as_data (design_in layout.now top.now)) (bits_of layout.now.flat.nets.items)) }
{
    bits_by_parts();
    is_narrow(layout.starts.bits);
    match clock {
        Some(bit) => first_taking(alloc, &layout.flat.nets, words, drivers, bit),
        None => Ok(None),
    }
}

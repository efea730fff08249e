//! What drives, sets and begins each bit of a design that is laid out.

ghost use Rattle.std.specs.Prelude.{◌≡◌, ◌≤◌, ◌+◌, [], None, IfOk, OnOk, sum_by};
ghost use Rattle.eq_net.specs.Meaning.{cost_of};
ghost use Rattle.eq_net.specs.Net.{AreWords};
ghost use Rattle.eq_net.specs.Tree.{trees_of as words_of};
ghost use Rattle.eq_verilog.specs.BitRefusals.{two_drivers};
ghost use Rattle.eq_flatten.specs.Rendering.{KeepsFront};
ghost use Rattle.eq_drivers.specs.Telling.{AreRegs, Tell};
ghost use Rattle.eq_layout.specs.Layout.{design_in, AreSound, IsLaidOut};
ghost use Rattle.eq_layout.specs.Spending.{equation_costs, process_costs};
ghost use Rattle.eq_elab.specs.inner.Elaborating.{IsWired};

use crate::checking::is_narrow;
use eq_base::Memory;
use eq_drivers::{Slots, drivers, slots_of_more_words};
use eq_layout::{Layout, driven};
use eq_names::Name;
use eq_net::{Driver, Words};
use eq_sequential::{all_initials, all_next};
use std::alloc::Global;

/// The slots of all bits, and the words that they speak of.
pub fn slots_of(
    alloc: Global,
    layout: &Layout,
    top: &Name,
    words: &mut Words,
) -> Result<Slots, Memory>
    requires laid { IsLaidOut top.now layout.now }
    requires sound { AreSound top.now layout.now }
    requires empty { words_of words.old ≡ [] }
    ensures tell { IfOk result (λ slots. Tell layout.now.flat.nets.items (words_of words.new)
        (design_in layout.now top.now) slots) }
    ensures words { OnOk result (AreWords layout.now.flat.nets.items (words_of words.new)) }
    ensures costs { OnOk result (sum_by cost_of (words_of words.new) ≤
        equation_costs layout.now + process_costs layout.now) }
{
    slots_of_more_words();
    let driven = driven(alloc, layout, top, words)?;
    let followed = all_next(alloc, layout, top, words)?;
    let begun = all_initials(alloc, layout, top)?;
    Ok(Slots {
        driven,
        followed,
        constants: begun.constants,
        begun: begun.slots,
    })
}

/// The driver of each bit, where no bit has two.
pub fn drivers_of(
    alloc: Global,
    layout: &Layout,
    top: &Name,
    flags: &[bool],
    slots: &Slots,
    words: &mut Words,
) -> Result<Vec<Driver>, Memory>
    requires laid { IsLaidOut top.now layout.now }
    requires tell { Tell layout.now.flat.nets.items (words_of words.old)
        (design_in layout.now top.now) slots.now }
    requires regs { AreRegs (design_in layout.now top.now) flags.now }
    requires single { two_drivers (design_in layout.now top.now) ≡ None }
    requires words { AreWords layout.now.flat.nets.items (words_of words.old) }
    ensures wired { IfOk result (λ drivers.
        IsWired layout.now top.now (words_of words.new) drivers.items) }
    ensures kept { OnOk result (KeepsFront (words_of words.old) (words_of words.new)) }
    ensures costs { OnOk result
        (sum_by cost_of (words_of words.new) ≤ sum_by cost_of (words_of words.old)) }
{
    is_narrow(layout.starts.bits);
    drivers(alloc, &layout.flat.nets, flags, slots, words)
}

//! What drives each bit of a design that is laid out.

ghost use Rattle.std.specs.Prelude.{◌≡◌, ◌≤◌, ◌+◌, IfOk, OnOk, length, sum_by};
ghost use Rattle.eq_net.specs.Meaning.{cost_of};
ghost use Rattle.eq_net.specs.Net.{bits_of, AreWords};
ghost use Rattle.eq_net.specs.Tree.{trees_of as words_of};
ghost use Rattle.eq_flatten.specs.Equating.{AreDriven};
ghost use Rattle.eq_flatten.specs.Rendering.{KeepsFront};
ghost use Rattle.eq_layout.specs.Layout.{design_in, AreSound, IsLaidOut};
ghost use Rattle.eq_layout.specs.Spending.{equation_costs};

use crate::layout::Layout;
use eq_base::Memory;
use eq_flatten::{Slot, all_slots};
use eq_names::Name;
use eq_net::Words;
use std::alloc::Global;

/// What drives each bit: slots that speak of exactly the design's equations, by the words to which these grow.
pub fn driven(
    alloc: Global,
    layout: &Layout,
    top: &Name,
    words: &mut Words,
) -> Result<Vec<Slot>, Memory>
    requires laid { IsLaidOut top.now layout.now }
    requires sound { AreSound top.now layout.now }
    ensures size { IfOk result (λ slots. length slots.items ≡ bits_of layout.now.flat.nets.items) }
    ensures driven { IfOk result (λ slots. AreDriven layout.now.flat.nets.items (words_of words.new)
        (design_in layout.now top.now).equations slots.items) }
    ensures kept { OnOk result (KeepsFront (words_of words.old) (words_of words.new)) }
    ensures words { OnOk result (AreWords layout.now.flat.nets.items (words_of words.old) →
        AreWords layout.now.flat.nets.items (words_of words.new)) }
    ensures costs { OnOk result (sum_by cost_of (words_of words.new) ≤
        sum_by cost_of (words_of words.old) + equation_costs layout.now) }
{
    all_slots(
        alloc,
        top,
        &layout.found,
        &layout.tables,
        &layout.owned,
        &layout.flat,
        &layout.starts.starts,
        layout.starts.bits,
        words,
    )
}

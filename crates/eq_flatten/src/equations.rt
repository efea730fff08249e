//! Equations: a right side becomes a word, and the bits of the target are driven by it.

ghost use Rattle.std.specs.Prelude.{◌≡◌, ◌+◌, ◌∷◌, ◌<◌, ◌≤◌, ◌^◌, [], All, OnOk, length};
ghost use Rattle.eq_net.specs.Net.{HasBit, bits_of};
ghost use Rattle.eq_net.specs.Tree.{tree_of, trees_of};
ghost use Rattle.eq_verilog.specs.Costs.{side_cost};
ghost use Rattle.eq_verilog.specs.Equations.{assignment};
ghost use Rattle.eq_verilog.specs.Expressions.{wire};
ghost use Rattle.eq_verilog.specs.Sizes as sizes;
ghost use Rattle.eq_verilog.specs.Trees.{expr_tree, target_tree};
ghost use Rattle.eq_analysis.specs.Finding.{scope_of};
ghost use Rattle.eq_analysis.specs.Measuring.{IsFit, IsSmall};
ghost use Rattle.eq_flatten.specs.Driving.{IsApart};
ghost use Rattle.eq_flatten.specs.Equating.{AddsEquations, AreEquated, AreStarts};
ghost use Rattle.eq_flatten.specs.Meant.{AreSlim};

use crate::driving::{Slot, drive};
use crate::target_bits::add_target;
use crate::words::{add_word, narrow, word};
use eq_analysis::own;
use eq_base::Memory;
use eq_names::NameTable;
use eq_net::{BitName, BitNames, NetInfo, Word, Words};
use eq_vparse::{Expr, Target};
use std::alloc::Global;

/// A word becomes one of the words, and bits are driven by it, position by position.
pub fn equate(
    bits: &[BitName],
    made: Word,
    nets: &[NetInfo],
    starts: &[u32],
    words: &mut Words,
    slots: &mut [Slot],
) -> Result<(), Memory>
    requires there { All (HasBit nets.now) bits.now }
    requires starts { AreStarts nets.now starts.now }
    requires slots { length slots.old ≡ bits_of nets.now }
    requires room { bits_of nets.now < 2 ^ 32 }
    requires few { length bits.now < 2 ^ 32 }
    ensures { OnOk result (AreEquated nets.now bits.now (tree_of made) (trees_of words.old)
        (trees_of words.new) slots.old slots.new) }
{
    let number = add_word(made, words)?;
    drive(slots, starts, bits, number);
    Ok(())
}

/// The equation of an assignment.
pub fn add_assign(
    alloc: Global,
    target: &Target,
    expr: &Expr,
    nets: &[NetInfo],
    names: &NameTable,
    from: u32,
    starts: &[u32],
    words: &mut Words,
    slots: &mut [Slot],
) -> Result<(), Memory>
    requires room { from + length names.now < 2 ^ 32 }
    requires target { IsFit nets.now names.now from (target_tree target.now) }
    requires slim { AreSlim (scope_of nets.now names.now from) (target_tree target.now) }
    requires source { IsFit nets.now names.now from (expr_tree expr.now) }
    requires small { IsSmall (scope_of nets.now names.now from) (expr_tree expr.now) }
    requires apart { IsApart (wire (scope_of nets.now names.now from) (target_tree target.now)) }
    requires starts { AreStarts nets.now starts.now }
    requires slots { length slots.old ≡ bits_of nets.now }
    requires few { bits_of nets.now < 2 ^ 32 }
    ensures { OnOk result (AddsEquations nets.now (trees_of words.old) (trees_of words.new)
        slots.old slots.new
        (assignment (scope_of nets.now names.now from) (target_tree target.now)
        (scope_of nets.now names.now from) (expr_tree expr.now) ∷ [])
        (side_cost (scope_of nets.now names.now from) (expr_tree expr.now)
        (sizes.own (scope_of nets.now names.now from) (target_tree target.now)))) }
{
    let mut bits = BitNames::new(alloc);
    add_target(alloc, &mut bits, target, nets, names, from)?;
    let count = narrow(bits.len())?;
    let size = count.max(own(expr, nets, names, from));
    let made = word(alloc, expr, size, nets, names, from, words)?;
    equate(bits.as_slice(), made, nets, starts, words, slots)
}

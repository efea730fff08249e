//! A target is set: the places of its bits get the bits of a word.

ghost use Rattle.std.specs.Prelude.{◌≡◌, ◌+◌, ◌<◌, ◌^◌, ℕ, Option, IfOk, OnOk, Some, length, slice_get};
ghost use Rattle.eq_net.specs.Net.{AreWords, bits_of};
ghost use Rattle.eq_net.specs.Tree.{trees_of};
ghost use Rattle.eq_verilog.specs.Trees.{expr_tree, set, target_tree};
ghost use Rattle.eq_analysis.specs.Finding.{scope_of};
ghost use Rattle.eq_flatten.specs.Driving.{AreWired};
ghost use Rattle.eq_flatten.specs.Equating.{AreStarts};
ghost use Rattle.eq_flatten.specs.Items.{IsSource, IsTarget};
ghost use Rattle.eq_registers.specs.Running.{AllKeys, HasKeys, HasRun, IsKey};
ghost use Rattle.eq_registers.specs.Standing.{AreThere};
ghost use Rattle.eq_registers.specs.inner.Writing.{AreKeyed, IsWritten};

use crate::keys::{Keys, place};
use eq_analysis::own;
use eq_base::Memory;
use eq_flatten::{add_target, add_word, number_in, word, words_render};
use eq_names::NameTable;
use eq_net::{BitName, BitNames, NetInfo, WordBit, WordBits, Words};
use eq_vparse::{Expr, Target};
use std::alloc::{AllocError, Global};

/// A count that a word can have.
pub fn narrow(count: usize) -> Result<u32, Memory>
    ensures { IfOk result (λ n. n ≡ count) }
{
    match u32::try_from(count) {
        Ok(narrow) => Ok(narrow),
        Err(_) => Err(AllocError),
    }
}

/// The entry at the place of a bit.
fn put(keys: &Keys, bit: u32, entry: WordBit, table: &mut WordBits)
    requires keys { HasKeys keys.now.bits keys.now.places }
    requires there { IsKey keys.now.bits bit }
    requires size { length table.old ≡ length keys.now.bits }
    ensures size { length table.new ≡ length table.old }
    ensures here { (p : ℕ) → slice_get keys.now.bits p ≡ Some bit →
        slice_get table.new p ≡ Some entry }
    ensures others { (p b : ℕ) → slice_get keys.now.bits p ≡ Some b → (b ≡ bit → ⊥) →
        slice_get table.new p ≡ slice_get table.old p }
{
    let at = place(keys, bit);
    table.set(at as usize, entry);
}

/// The places of bits get the bits of a word, position by position.
fn put_all(bits: &[BitName], word: u32, starts: &[u32], keys: &Keys, table: &mut WordBits)
    requires keys { HasKeys keys.now.bits keys.now.places }
    requires keyed { AreKeyed starts.now keys.now.bits bits.now }
    requires size { length table.old ≡ length keys.now.bits }
    requires few { length bits.now < 2 ^ 32 }
    ensures { (f : ℕ → Option ℕ) → AreWired starts.now bits.now f →
        IsWritten keys.now.bits f word table.old table.new (length bits.now) }
{
    for at in 0..bits.len() {
        let bit = number_in(starts, bits[at]);
        let entry = WordBit {
            word,
            bit: at as u32,
        };
        put(keys, bit, entry, table);
    }
}

/// A target is set to an expression.
pub fn run_set(
    alloc: Global,
    target: &Target,
    expr: &Expr,
    nets: &[NetInfo],
    names: &NameTable,
    from: u32,
    starts: &[u32],
    keys: &Keys,
    table: &mut WordBits,
    words: &mut Words,
) -> Result<(), Memory>
    requires room { from + length names.now < 2 ^ 32 }
    requires target { IsTarget nets.now names.now from (target_tree target.now) }
    requires source { IsSource nets.now names.now from (expr_tree expr.now) }
    requires starts { AreStarts nets.now starts.now }
    requires few { bits_of nets.now < 2 ^ 32 }
    requires keys { HasKeys keys.now.bits keys.now.places }
    requires all { AllKeys keys.now.bits (scope_of nets.now names.now from)
        (set (target_tree target.now) (expr_tree expr.now)) }
    requires size { length table.old ≡ length keys.now.bits }
    requires there { AreThere (trees_of words.old) table.old }
    requires words { AreWords nets.now (trees_of words.old) }
    ensures { OnOk result (HasRun nets.now (scope_of nets.now names.now from)
        (set (target_tree target.now) (expr_tree expr.now)) keys.now.bits
        (trees_of words.old) (trees_of words.new) table.old table.new) }
{
    words_render();
    let mut bits = BitNames::new(alloc);
    add_target(alloc, &mut bits, target, nets, names, from)?;
    let count = narrow(bits.len())?;
    let size = count.max(own(expr, nets, names, from));
    let made = word(alloc, expr, size, nets, names, from, words)?;
    let number = add_word(made, words)?;
    put_all(bits.as_slice(), number, starts, keys, table);
    Ok(())
}

//! An `if`: the bits that one of its branches sets become the bits of one word, which chooses between the branches.

ghost use Rattle.std.specs.Prelude.{◌≡◌, ◌+◌, ◌++◌, ◌∷◌, [], ◌<◌, ◌^◌, ℕ, IfOk, OnOk, Some, length, slice_get, slice_set};
ghost use Rattle.eq_net.specs.Net.{AreWords};
ghost use Rattle.eq_net.specs.Tree as tree;
ghost use Rattle.eq_net.specs.Tree.{tree_of, trees_of};
ghost use Rattle.eq_verilog.specs.Sizes as sizes;
ghost use Rattle.eq_verilog.specs.Trees.{expr_tree};
ghost use Rattle.eq_analysis.specs.Finding.{scope_of};
ghost use Rattle.eq_flatten.specs.Items.{IsSource};
ghost use Rattle.eq_registers.specs.inner.Choosing as spec;
ghost use Rattle.eq_registers.specs.inner.Choosing.{HasCondition, IsChosen, IsGathered, IsTaken, IsWhole};
ghost use Rattle.eq_registers.specs.inner.Writing.{entry};

use crate::setting::narrow;
use eq_base::{Boxed, Memory};
use eq_flatten::{add_word, word, words_render};
use eq_names::NameTable;
use eq_net::{NetInfo, Word, WordBit, WordBits, Words};
use eq_vparse::Expr;
use std::alloc::Global;

/// The condition of an `if` becomes one of the words, by itself. Its number, where `width` is its size.
pub fn add_condition(
    alloc: Global,
    condition: &Expr,
    width: u32,
    nets: &[NetInfo],
    names: &NameTable,
    from: u32,
    words: &mut Words,
) -> Result<u32, Memory>
    requires room { from + length names.now < 2 ^ 32 }
    requires source { IsSource nets.now names.now from (expr_tree condition.now) }
    requires width { width ≡
        sizes.own (scope_of nets.now names.now from) (expr_tree condition.now) }
    requires words { AreWords nets.now (trees_of words.old) }
    ensures { IfOk result (λ number. HasCondition nets.now (scope_of nets.now names.now from)
        (expr_tree condition.now) number (trees_of words.old) (trees_of words.new)) }
{
    words_render();
    let made = word(alloc, condition, width, nets, names, from, words)?;
    let number = add_word(made, words)?;
    Ok(number)
}

/// The bits of a word.
pub fn whole(alloc: Global, word: u32, width: u32) -> Result<WordBits, Memory>
    ensures { IfOk result (λ bits. IsWhole word bits width) }
{
    let mut bits = WordBits::new(alloc);
    for bit in 0..width {
        bits.push(WordBit { word, bit })?;
    }
    Ok(bits)
}

/// The first bits where the condition isn't zero, else the others.
fn pick_one(
    alloc: Global,
    condition: WordBits,
    ones: WordBits,
    others: WordBits,
) -> Result<Word, Memory>
    ensures { IfOk result (λ made. tree_of made ≡
        tree.choice (tree.pick condition) (tree.pick ones) (tree.pick others)) }
{
    let condition = Boxed::new(alloc, Word::Pick(condition))?;
    let ones = Boxed::new(alloc, Word::Pick(ones))?;
    let others = Boxed::new(alloc, Word::Pick(others))?;
    Ok(Word::Mux(condition, ones, others))
}

/// One of two entries stands behind the word of a condition.
fn is_new(condition: u32, one: WordBit, other: WordBit) -> bool
    ensures { result ≡ spec.is_new condition one other }
{
    condition < one.word || condition < other.word
}

fn entry_at(table: &[WordBit], place: usize) -> WordBit
    requires { place < length table.now }
    ensures { slice_get table.now place ≡ Some result }
{
    table[place]
}

/// A bit between two entries is one more bit of the word with this number.
fn take(
    number: u32,
    place: usize,
    one: WordBit,
    other: WordBit,
    ones: &mut WordBits,
    others: &mut WordBits,
    table: &mut WordBits,
) -> Result<(), Memory>
    requires { place < length table.old }
    ensures ones { OnOk result (ones.new ≡ ones.old ++ one ∷ []) }
    ensures others { OnOk result (others.new ≡ others.old ++ other ∷ []) }
    ensures table { OnOk result (table.new ≡
        slice_set table.old place (entry number (length ones.old))) }
{
    let bit = narrow(ones.len())?;
    ones.push(one)?;
    others.push(other)?;
    table.set(place, WordBit { word: number, bit });
    Ok(())
}

/// The same where one of the entries is new; else the place keeps its entry.
fn gather_at(
    condition: u32,
    number: u32,
    place: usize,
    one: WordBit,
    ones: &mut WordBits,
    others: &mut WordBits,
    table: &mut WordBits,
) -> Result<(), Memory>
    requires { place < length table.old }
    ensures { OnOk result (IsTaken condition number place one ones.old others.old table.old
        ones.new others.new table.new) }
{
    let other = entry_at(table.as_slice(), place);
    if is_new(condition, one, other) {
        take(number, place, one, other, ones, others, table)
    } else {
        Ok(())
    }
}

/// All places of which one entry is new.
fn gather(
    condition: u32,
    number: u32,
    firsts: &[WordBit],
    ones: &mut WordBits,
    others: &mut WordBits,
    table: &mut WordBits,
) -> Result<(), Memory>
    requires size { length table.old ≡ length firsts.now }
    requires ones { ones.old ≡ [] }
    requires others { others.old ≡ [] }
    ensures { OnOk result (IsGathered condition number firsts.now table.old table.new
        ones.new others.new (length firsts.now)) }
{
    for place in 0..firsts.len() {
        let one = entry_at(firsts, place);
        gather_at(condition, number, place, one, ones, others, table)?;
    }
    Ok(())
}

/// One word chooses between the entries that the first branch left and those in the table, and its bits become the entries.
pub fn choose(
    alloc: Global,
    condition: u32,
    width: u32,
    firsts: &[WordBit],
    table: &mut WordBits,
    words: &mut Words,
) -> Result<(), Memory>
    requires size { length table.old ≡ length firsts.now }
    ensures { OnOk result (IsChosen condition width firsts.now table.old table.new
        (trees_of words.old) (trees_of words.new)) }
{
    let number = narrow(words.len())?;
    let bits = whole(alloc, condition, width)?;
    let mut ones = WordBits::new(alloc);
    let mut others = WordBits::new(alloc);
    gather(condition, number, firsts, &mut ones, &mut others, table)?;
    let made = pick_one(alloc, bits, ones, others)?;
    add_word(made, words)?;
    Ok(())
}

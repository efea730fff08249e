//! The values of words, from the values of all bits of the nets.

ghost use Rattle.std.specs.Prelude.{◌≡◌, ℕ, ◌++◌, ◌≤◌, ◌<◌, All, IfOk, OnOk, length, map};
ghost use Rattle.eq_model.specs.Frames.{frames, values};
ghost use Rattle.eq_net.specs.Meaning.{bit_of, width};
ghost use Rattle.eq_net.specs.Net.{AreWords, HasBit, bits_of, number_of, word_at};
ghost use Rattle.eq_net.specs.Tree.{join_all, tree_of, trees_of};
ghost use Rattle.eq_net.specs.inner.Sized.{AreStarts, HasWords, IsSized};
ghost use Rattle.eq_net.specs.inner.Stack.{Grows};

use crate::arithmetic::oppose;
use crate::bitwise::negate;
use crate::operators::{choose_one, extend, operate, reduce_to_one};
use crate::types::{NetInfo, Word, WordBit};
use eq_base::{Bits, Memory};
use eq_names::BitName;
use std::alloc::Global;

/// The value of a named bit.
pub fn named(name: BitName, nets: &[NetInfo], starts: &[u32], now: &[bool]) -> bool
    requires named { HasBit nets.now name }
    requires starts { AreStarts nets.now starts.now }
    requires bits { length now.now ≡ bits_of nets.now }
    ensures { result ≡ values now.now (number_of nets.now name) }
{
    now[starts[name.net as usize] as usize + name.bit as usize]
}

/// The value at a place, 0 where there is none.
fn value_at(bits: &Bits, at: usize) -> bool
    ensures { result ≡ values bits.now at }
{
    match bits.get(at) {
        Some(value) => *value,
        None => false,
    }
}

/// The value of a bit of an earlier word, 0 where it isn't there.
pub fn picked(bit: WordBit, earlier: &[Bits]) -> bool
    ensures { result ≡ frames earlier.now bit.word bit.bit }
{
    match earlier.get(bit.word as usize) {
        Some(bits) => value_at(bits, bit.bit as usize),
        None => false,
    }
}

fn push_constant(bits: &[bool], stack: &mut Vec<bool>) -> Result<(), Memory>
    ensures { OnOk result (stack.new.items ≡ stack.old.items ++ bits.now) }
{
    for bit in bits {
        stack.push(*bit)?;
    }
    Ok(())
}

fn push_named(
    names: &[BitName],
    nets: &[NetInfo],
    starts: &[u32],
    now: &[bool],
    stack: &mut Vec<bool>,
) -> Result<(), Memory>
    requires named { All (HasBit nets.now) names.now }
    requires starts { AreStarts nets.now starts.now }
    requires bits { length now.now ≡ bits_of nets.now }
    ensures { OnOk result (stack.new.items ≡ stack.old.items ++ map
        (λ n. values now.now (number_of nets.now n)) names.now) }
{
    for name in names {
        stack.push(named(*name, nets, starts, now))?;
    }
    Ok(())
}

fn push_picked(bits: &[WordBit], earlier: &[Bits], stack: &mut Vec<bool>) -> Result<(), Memory>
    ensures { OnOk result (stack.new.items ≡ stack.old.items ++ map
        (λ (b : WordBit). frames earlier.now b.word b.bit) bits.now) }
{
    for bit in bits {
        stack.push(picked(*bit, earlier))?;
    }
    Ok(())
}

/// Puts the bits of a word onto the stack.
#[cycle(words)]
fn push_word(
    word: &Word,
    nets: &[NetInfo],
    starts: &[u32],
    now: &[bool],
    earlier: &[Bits],
    stack: &mut Vec<bool>,
) -> Result<(), Memory>
    requires sized { IsSized nets.now (tree_of word.now) }
    requires starts { AreStarts nets.now starts.now }
    requires bits { length now.now ≡ bits_of nets.now }
    ensures { OnOk result (Grows (bit_of (values now.now) (number_of nets.now) (frames earlier.now)
        (tree_of word.now)) (width (tree_of word.now)) stack.old.items stack.new.items) }
{
    let from = stack.len();
    match word {
        Word::Const(bits) => push_constant(bits.as_slice(), stack),
        Word::Read(names) => push_named(names.as_slice(), nets, starts, now, stack),
        Word::Pick(bits) => push_picked(bits.as_slice(), earlier, stack),
        Word::Not(a) => {
            push_word(a.get(), nets, starts, now, earlier, stack)?;
            negate(stack, from);
            Ok(())
        }
        Word::Neg(a) => {
            push_word(a.get(), nets, starts, now, earlier, stack)?;
            oppose(stack, from);
            Ok(())
        }
        Word::Binary(op, a, b) => {
            push_word(a.get(), nets, starts, now, earlier, stack)?;
            let right = stack.len();
            push_word(b.get(), nets, starts, now, earlier, stack)?;
            operate(*op, stack, from, right)
        }
        Word::Reduce(op, a) => {
            push_word(a.get(), nets, starts, now, earlier, stack)?;
            reduce_to_one(*op, stack, from)
        }
        Word::Mux(c, a, b) => {
            push_word(c.get(), nets, starts, now, earlier, stack)?;
            let left = stack.len();
            push_word(a.get(), nets, starts, now, earlier, stack)?;
            let right = stack.len();
            push_word(b.get(), nets, starts, now, earlier, stack)?;
            choose_one(stack, from, left, right);
            Ok(())
        }
        Word::Concat(parts) => { push_parts(parts.as_slice(), nets, starts, now, earlier, stack) }
        Word::Extend(a, count) => {
            push_word(a.get(), nets, starts, now, earlier, stack)?;
            extend(stack, from, *count as usize)
        }
    }
}

/// Puts the bits of words onto the stack, those of the last word lowest.
#[cycle(words)]
fn push_parts(
    parts: &[Word],
    nets: &[NetInfo],
    starts: &[u32],
    now: &[bool],
    earlier: &[Bits],
    stack: &mut Vec<bool>,
) -> Result<(), Memory>
    requires sized { IsSized nets.now (join_all (trees_of parts.now)) }
    requires starts { AreStarts nets.now starts.now }
    requires bits { length now.now ≡ bits_of nets.now }
    ensures { OnOk result (Grows (bit_of (values now.now) (number_of nets.now) (frames earlier.now)
        (join_all (trees_of parts.now))) (width (join_all (trees_of parts.now))) stack.old.items
        stack.new.items) }
{
    for turn in 0..parts.len() {
        push_word(
            &parts[parts.len() - 1 - turn],
            nets,
            starts,
            now,
            earlier,
            stack,
        )?;
    }
    Ok(())
}

/// The bits of a word.
pub fn evaluate(
    alloc: Global,
    word: &Word,
    nets: &[NetInfo],
    starts: &[u32],
    now: &[bool],
    earlier: &[Bits],
) -> Result<Bits, Memory>
    requires sized { IsSized nets.now (tree_of word.now) }
    requires starts { AreStarts nets.now starts.now }
    requires bits { length now.now ≡ bits_of nets.now }
    ensures size { IfOk result (λ bits. length bits ≡ width (tree_of word.now)) }
    ensures each { IfOk result (λ bits. (j : ℕ) → j < width (tree_of word.now) →
        values bits j ≡ bit_of (values now.now) (number_of nets.now) (frames earlier.now)
        (tree_of word.now) j) }
{
    let mut stack = Vec::new(alloc);
    push_word(word, nets, starts, now, earlier, &mut stack)?;
    Ok(Bits::from_vec(stack))
}

/// The bits of all words, where the nets' bits have the values `now`.
pub fn evaluate_all(
    alloc: Global,
    words: &[Word],
    nets: &[NetInfo],
    starts: &[u32],
    now: &[bool],
) -> Result<Vec<Bits>, Memory>
    requires words { AreWords nets.now (trees_of words.now) }
    requires starts { AreStarts nets.now starts.now }
    requires bits { length now.now ≡ bits_of nets.now }
    ensures { IfOk result (λ all. HasWords (values now.now) (number_of nets.now)
        (trees_of words.now) (length words.now) all.items) }
{
    let mut all = Vec::with_capacity(alloc, words.len())?;
    for word in words {
        let bits = evaluate(alloc, word, nets, starts, now, &all)?;
        all.push(bits)?;
    }
    Ok(all)
}

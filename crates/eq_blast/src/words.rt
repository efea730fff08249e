//! Words as gates over the bits of the nets.

ghost use Rattle.std.specs.Prelude.{◌≡◌, ℕ, ◌+◌, ◌-◌, ◌≤◌, ◌<◌, ◌^◌, All, Bool, OnOk, cond, false, length, slice_get, slice_index_or};
ghost use Rattle.eq_names.specs.declared.BitName.{BitName};
ghost use Rattle.eq_net.specs.Meaning.{cost_of, if_there, width};
ghost use Rattle.eq_net.specs.Net.{HasBit, bits_of, number_of};
ghost use Rattle.eq_net.specs.Tree.{join_all, tree_of, trees_of};
ghost use Rattle.eq_net.specs.declared.types.WordBit.{WordBit};
ghost use Rattle.eq_blast.specs.inner.Stack.{Written};
ghost use Rattle.eq_blast.specs.inner.Wiring.{node_of};
ghost use Rattle.eq_blast.specs.inner.Words.{BeginAt, Fits, Puts, Ready, row};

use crate::operators::{operate, reduce_to_one};
use crate::stack::{push, push_zeros};
use crate::sums::{negate, oppose};
use crate::truths::choose_one;
use eq_base::Memory;
use eq_bits::{Builder, NodeIds};
use eq_names::BitName;
use eq_net::laws::{bits_stand_by_nets, operations_see_their_bits};
use eq_net::{NetInfo, Word, WordBit};

/// The node of a named bit.
fn named(name: BitName, nets: &[NetInfo], starts: &[u32]) -> u32
    requires named { HasBit nets.now name }
    requires starts { BeginAt nets.now starts.now }
    requires few { 2 + bits_of nets.now < 2 ^ 32 }
    ensures { result ≡ node_of (number_of nets.now name) }
{
    bits_stand_by_nets();
    2 + starts[name.net as usize] + name.bit
}

/// The node at a place, 0 where there is none.
fn node_in(nodes: &NodeIds, at: usize) -> u32
    ensures { result ≡ slice_index_or nodes.now at 0 }
{
    match nodes.get(at) {
        Some(node) => *node,
        None => 0,
    }
}

/// The node of a bit of an earlier word, 0 where it isn't there.
pub fn picked(bit: WordBit, earlier: &[NodeIds]) -> u32
    ensures { result ≡ row earlier.now bit.word bit.bit }
{
    match earlier.get(bit.word as usize) {
        Some(nodes) => node_in(nodes, bit.bit as usize),
        None => 0,
    }
}

fn push_constant(bits: &[bool], stack: &mut Vec<u32>) -> Result<(), Memory>
    ensures written { OnOk result
        (Written (length stack.old.items) (length bits.now) stack.old.items stack.new.items) }
    ensures put { OnOk result
        ((j : ℕ) → j < length bits.now →
        slice_index_or stack.new.items (length stack.old.items + j) 0 ≡
        cond {A = ℕ} (slice_index_or bits.now j false) 1 0) }
{
    for bit in bits {
        push(stack, if *bit { 1 } else { 0 })?;
    }
    Ok(())
}

fn push_named(
    names: &[BitName],
    nets: &[NetInfo],
    starts: &[u32],
    stack: &mut Vec<u32>,
) -> Result<(), Memory>
    requires named { All (HasBit nets.now) names.now }
    requires starts { BeginAt nets.now starts.now }
    requires few { 2 + bits_of nets.now < 2 ^ 32 }
    ensures written { OnOk result
        (Written (length stack.old.items) (length names.now) stack.old.items stack.new.items) }
    ensures put { OnOk result
        ((j : ℕ) → j < length names.now →
        slice_index_or stack.new.items (length stack.old.items + j) 0 ≡
        if_there 0 (λ (n : BitName). node_of (number_of nets.now n)) (slice_get names.now j)) }
{
    for name in names {
        push(stack, named(*name, nets, starts))?;
    }
    Ok(())
}

fn push_picked(bits: &[WordBit], earlier: &[NodeIds], stack: &mut Vec<u32>) -> Result<(), Memory>
    ensures written { OnOk result
        (Written (length stack.old.items) (length bits.now) stack.old.items stack.new.items) }
    ensures put { OnOk result
        ((j : ℕ) → j < length bits.now →
        slice_index_or stack.new.items (length stack.old.items + j) 0 ≡
        if_there 0 (λ (b : WordBit). row earlier.now b.word b.bit) (slice_get bits.now j)) }
{
    for bit in bits {
        push(stack, picked(*bit, earlier))?;
    }
    Ok(())
}

/// Puts the gates of a word onto the stack.
#[cycle(words)]
pub fn push_word(
    word: &Word,
    nets: &[NetInfo],
    starts: &[u32],
    earlier: &[NodeIds],
    builder: &mut Builder,
    stack: &mut Vec<u32>,
) -> Result<(), Memory>
    requires fits { Fits nets.now (tree_of word.now) }
    requires starts { BeginAt nets.now starts.now }
    requires ready { Ready nets.now earlier.now builder.old stack.old.items }
    requires room { length builder.old + cost_of (tree_of word.now) ≤ 2 ^ 21 }
    ensures { OnOk result
        (Puts nets.now earlier.now
        (tree_of word.now) builder.old builder.new stack.old.items stack.new.items) }
{
    operations_see_their_bits();
    bits_stand_by_nets();
    let from = stack.len();
    match word {
        Word::Const(bits) => push_constant(bits.as_slice(), stack),
        Word::Read(names) => push_named(names.as_slice(), nets, starts, stack),
        Word::Pick(bits) => push_picked(bits.as_slice(), earlier, stack),
        Word::Not(a) => {
            push_word(a.get(), nets, starts, earlier, builder, stack)?;
            negate(builder, stack, from)
        }
        Word::Neg(a) => {
            push_word(a.get(), nets, starts, earlier, builder, stack)?;
            oppose(builder, stack, from)
        }
        Word::Binary(op, a, b) => {
            push_word(a.get(), nets, starts, earlier, builder, stack)?;
            let right = stack.len();
            push_word(b.get(), nets, starts, earlier, builder, stack)?;
            operate(*op, builder, stack, from, right)
        }
        Word::Reduce(op, a) => {
            push_word(a.get(), nets, starts, earlier, builder, stack)?;
            reduce_to_one(*op, builder, stack, from)
        }
        Word::Mux(c, a, b) => {
            push_word(c.get(), nets, starts, earlier, builder, stack)?;
            let left = stack.len();
            push_word(a.get(), nets, starts, earlier, builder, stack)?;
            let right = stack.len();
            push_word(b.get(), nets, starts, earlier, builder, stack)?;
            choose_one(builder, stack, from, left, right)
        }
        Word::Concat(parts) => {
            push_parts(parts.as_slice(), nets, starts, earlier, builder, stack)
        }
        Word::Extend(a, count) => {
            push_word(a.get(), nets, starts, earlier, builder, stack)?;
            let width = stack.len() - from;
            push_zeros(stack, *count as usize - width)
        }
    }
}

/// Puts the gates of words onto the stack, those of the last word lowest.
#[cycle(words)]
fn push_parts(
    parts: &[Word],
    nets: &[NetInfo],
    starts: &[u32],
    earlier: &[NodeIds],
    builder: &mut Builder,
    stack: &mut Vec<u32>,
) -> Result<(), Memory>
    requires fits { Fits nets.now (join_all (trees_of parts.now)) }
    requires starts { BeginAt nets.now starts.now }
    requires ready { Ready nets.now earlier.now builder.old stack.old.items }
    requires room { length builder.old + cost_of (join_all (trees_of parts.now)) ≤ 2 ^ 21 }
    ensures { OnOk result
        (Puts nets.now earlier.now
        (join_all (trees_of parts.now)) builder.old builder.new stack.old.items stack.new.items) }
{
    for turn in 0..parts.len() {
        push_word(
            &parts[parts.len() - 1 - turn],
            nets,
            starts,
            earlier,
            builder,
            stack,
        )?;
    }
    Ok(())
}

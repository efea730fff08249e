//! Words as cells over the bits of the nets.

ghost use Rattle.std.specs.Prelude.{◌≡◌, ℕ, ◌+◌, ◌<◌, ◌^◌, All, OnOk, false, length, slice_get, slice_index_or};
ghost use Rattle.eq_names.specs.declared.BitName.{BitName};
ghost use Rattle.eq_net.specs.Meaning.{if_there};
ghost use Rattle.eq_net.specs.Net.{HasBit, bits_of, number_of};
ghost use Rattle.eq_net.specs.Tree.{join_all, tree_of, trees_of};
ghost use Rattle.eq_net.specs.declared.types.WordBit.{WordBit};
ghost use Rattle.eq_net.specs.inner.Cells.{Performs, Written};
ghost use Rattle.eq_net.specs.inner.Circuits.{Puts, constant_number, row};
ghost use Rattle.eq_net.specs.inner.Sized.{AreStarts, IsSized};

use super::gates::{Cell, ONE, ZERO, add};
use super::numbers::{push, push_zeros};
use super::operators::{operate, reduce_to_one};
use super::sums::{negate, oppose};
use super::truths::choose_one;
use crate::laws::{bits_stand_by_nets, operations_see_their_bits};
use crate::types::{NetInfo, NetNumbers, Word, WordBit};
use eq_base::Memory;
use eq_names::BitName;

/// Where a named bit stands in the row of all.
fn place(name: BitName, nets: &[NetInfo], starts: &[u32]) -> u32
    requires named { HasBit nets.now name }
    requires starts { AreStarts nets.now starts.now }
    requires few { bits_of nets.now < 2 ^ 32 }
    ensures { result ≡ number_of nets.now name }
{
    bits_stand_by_nets();
    starts[name.net as usize] + name.bit
}

/// The number of a constant.
pub fn constant(bit: bool) -> u32
    ensures { result ≡ constant_number bit }
{
    if bit { ONE } else { ZERO }
}

/// The number at a place, 0 where there is none.
fn number_in(numbers: &NetNumbers, at: usize) -> u32
    ensures { result ≡ slice_index_or numbers.now at 0 }
{
    match numbers.get(at) {
        Some(number) => *number,
        None => ZERO,
    }
}

/// The number of the cell of a bit of an earlier word, 0 where it isn't there.
pub fn picked_number(bit: WordBit, rows: &[NetNumbers]) -> u32
    ensures { result ≡ row rows.now bit.word bit.bit }
{
    match rows.get(bit.word as usize) {
        Some(numbers) => number_in(numbers, bit.bit as usize),
        None => ZERO,
    }
}

/// Puts the numbers of constants on top.
pub fn push_constants(bits: &[bool], stack: &mut Vec<u32>) -> Result<(), Memory>
    ensures written { OnOk result
        (Written (length stack.old.items) (length bits.now) stack.old.items stack.new.items) }
    ensures put { OnOk result
        ((j : ℕ) → j < length bits.now →
        slice_index_or stack.new.items (length stack.old.items + j) 0 ≡
        constant_number (slice_index_or bits.now j false)) }
{
    for bit in bits {
        push(stack, constant(*bit))?;
    }
    Ok(())
}

/// The name at a place.
fn name_at(names: &[BitName], at: usize) -> BitName
    requires { at < length names.now }
    ensures { result ≡ slice_index_or names.now at result }
{
    names[at]
}

/// Puts a cell for each named bit on top.
fn push_named(
    names: &[BitName],
    nets: &[NetInfo],
    starts: &[u32],
    cells: &mut Vec<Cell>,
    stack: &mut Vec<u32>,
) -> Result<(), Memory>
    requires named { All (HasBit nets.now) names.now }
    requires starts { AreStarts nets.now starts.now }
    requires few { bits_of nets.now < 2 ^ 32 }
    ensures { OnOk result (Performs (length names.now) (length stack.old.items)
        (λ v j. if_there false (λ (n : BitName). v.bits (number_of nets.now n))
        (slice_get names.now j))
        cells.old.items cells.new.items stack.old.items stack.new.items) }
{
    for j in 0..names.len() {
        let name = name_at(names, j);
        let bit = place(name, nets, starts);
        let made = add(cells, Cell::Bit(bit))?;
        push(stack, made)?;
    }
    Ok(())
}

/// Puts the numbers of the cells of bits of earlier words on top.
fn push_picked(bits: &[WordBit], rows: &[NetNumbers], stack: &mut Vec<u32>) -> Result<(), Memory>
    ensures written { OnOk result
        (Written (length stack.old.items) (length bits.now) stack.old.items stack.new.items) }
    ensures put { OnOk result
        ((j : ℕ) → j < length bits.now →
        slice_index_or stack.new.items (length stack.old.items + j) 0 ≡
        if_there 0 (λ (b : WordBit). row rows.now b.word b.bit) (slice_get bits.now j)) }
{
    for bit in bits {
        push(stack, picked_number(*bit, rows))?;
    }
    Ok(())
}

/// Puts the cells of a word's bits onto the stack, where `rows` has those of the words before it.
#[cycle(circuits)]
pub fn push_cells(
    word: &Word,
    nets: &[NetInfo],
    starts: &[u32],
    rows: &[NetNumbers],
    cells: &mut Vec<Cell>,
    stack: &mut Vec<u32>,
) -> Result<(), Memory>
    requires sized { IsSized nets.now (tree_of word.now) }
    requires starts { AreStarts nets.now starts.now }
    requires few { bits_of nets.now < 2 ^ 32 }
    ensures { OnOk result (Puts nets.now rows.now (tree_of word.now) cells.old.items cells.new.items
        stack.old.items stack.new.items) }
{
    operations_see_their_bits();
    let from = stack.len();
    match word {
        Word::Const(bits) => push_constants(bits.as_slice(), stack),
        Word::Read(names) => push_named(names.as_slice(), nets, starts, cells, stack),
        Word::Pick(bits) => push_picked(bits.as_slice(), rows, stack),
        Word::Not(a) => {
            push_cells(a.get(), nets, starts, rows, cells, stack)?;
            negate(cells, stack, from)
        }
        Word::Neg(a) => {
            push_cells(a.get(), nets, starts, rows, cells, stack)?;
            oppose(cells, stack, from)
        }
        Word::Binary(op, a, b) => {
            push_cells(a.get(), nets, starts, rows, cells, stack)?;
            let right = stack.len();
            push_cells(b.get(), nets, starts, rows, cells, stack)?;
            operate(*op, cells, stack, from, right)
        }
        Word::Reduce(op, a) => {
            push_cells(a.get(), nets, starts, rows, cells, stack)?;
            reduce_to_one(*op, cells, stack, from)
        }
        Word::Mux(c, a, b) => {
            push_cells(c.get(), nets, starts, rows, cells, stack)?;
            let left = stack.len();
            push_cells(a.get(), nets, starts, rows, cells, stack)?;
            let right = stack.len();
            push_cells(b.get(), nets, starts, rows, cells, stack)?;
            choose_one(cells, stack, from, left, right)
        }
        Word::Concat(parts) => push_parts(parts.as_slice(), nets, starts, rows, cells, stack),
        Word::Extend(a, count) => {
            push_cells(a.get(), nets, starts, rows, cells, stack)?;
            let width = stack.len() - from;
            push_zeros(stack, *count as usize - width)
        }
    }
}

/// Puts the cells of words onto the stack, those of the last word lowest.
#[cycle(circuits)]
fn push_parts(
    parts: &[Word],
    nets: &[NetInfo],
    starts: &[u32],
    rows: &[NetNumbers],
    cells: &mut Vec<Cell>,
    stack: &mut Vec<u32>,
) -> Result<(), Memory>
    requires sized { IsSized nets.now (join_all (trees_of parts.now)) }
    requires starts { AreStarts nets.now starts.now }
    requires few { bits_of nets.now < 2 ^ 32 }
    ensures { OnOk result (Puts nets.now rows.now (join_all (trees_of parts.now)) cells.old.items
        cells.new.items stack.old.items stack.new.items) }
{
    for turn in 0..parts.len() {
        push_cells(
            &parts[parts.len() - 1 - turn],
            nets,
            starts,
            rows,
            cells,
            stack,
        )?;
    }
    Ok(())
}

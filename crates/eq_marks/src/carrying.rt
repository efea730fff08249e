//! Marks carried from the bits of nets to the bits of words.

ghost use Rattle.std.specs.Prelude.{◌≡◌, ℕ, ◌++◌, ◌≤◌, ◌<◌, ◌^◌, All, IfOk, OnOk, length, map, None, replicate};
ghost use Rattle.eq_net.specs.Meaning.{width};
ghost use Rattle.eq_net.specs.Net.{AreWords, HasBit, bits_of, number_of};
ghost use Rattle.eq_net.specs.Tree.{join_all, tree_of, trees_of};
ghost use Rattle.eq_net.specs.declared.types.WordBit.{WordBit as WordBitValue};
ghost use Rattle.eq_marks.specs.inner.Carrying.{BeginAt, HasRows, IsFitting, carried, mark_of, rows_mark};
ghost use Rattle.eq_marks.specs.inner.Marks.{GrowsBy};

use crate::marks::{Way, combine, drop_from, extend, leave_one, mix_all, mix_in, mix_up, operate};
use eq_base::{Items, Memory};
use eq_net::laws::bits_stand_by_nets;
use eq_net::{BitName, NetInfo, Word, WordBit};
use std::alloc::Global;

/// The marks of the bits of a word.
pub type MarkRow = Items<Option<u32>>;

/// Where the bits of each net begin.
pub fn net_starts(alloc: Global, nets: &[NetInfo]) -> Result<Vec<u32>, Memory>
    requires few { bits_of nets.now < 2 ^ 32 }
    ensures { IfOk result (λ starts. BeginAt nets.now starts.items) }
{
    bits_stand_by_nets();
    let mut starts = Vec::with_capacity(alloc, nets.len())?;
    let mut first = 0;
    for net in nets {
        starts.push(first as u32)?;
        first += net.width();
    }
    Ok(starts)
}

/// The mark of a named bit.
fn named(name: BitName, nets: &[NetInfo], starts: &[u32], marks: &[Option<u32>]) -> Option<u32>
    requires named { HasBit nets.now name }
    requires starts { BeginAt nets.now starts.now }
    requires bits { length marks.now ≡ bits_of nets.now }
    ensures { result ≡ mark_of marks.now (number_of nets.now name) }
{
    bits_stand_by_nets();
    marks[starts[name.net as usize] as usize + name.bit as usize]
}

/// The mark at a place of a row, none where there is no such place.
fn row_mark(row: &MarkRow, at: usize) -> Option<u32>
    ensures { result ≡ mark_of row.now at }
{
    match row.get(at) {
        Some(mark) => *mark,
        None => None,
    }
}

/// The mark of a bit of an earlier word, none where it isn't there.
pub fn picked(bit: WordBit, rows: &[MarkRow]) -> Option<u32>
    ensures { result ≡ rows_mark rows.now bit.word bit.bit }
{
    match rows.get(bit.word as usize) {
        Some(row) => row_mark(row, bit.bit as usize),
        None => None,
    }
}

/// Puts bits without marks onto the stack.
fn push_none(count: usize, stack: &mut Vec<Option<u32>>) -> Result<(), Memory>
    ensures { OnOk result (stack.new.items ≡ stack.old.items ++ replicate count None) }
{
    for _ in 0..count {
        stack.push(None)?;
    }
    Ok(())
}

fn push_named(
    names: &[BitName],
    nets: &[NetInfo],
    starts: &[u32],
    marks: &[Option<u32>],
    stack: &mut Vec<Option<u32>>,
) -> Result<(), Memory>
    requires named { All (HasBit nets.now) names.now }
    requires starts { BeginAt nets.now starts.now }
    requires bits { length marks.now ≡ bits_of nets.now }
    ensures { OnOk result (stack.new.items ≡ stack.old.items ++ map
        (λ n. mark_of marks.now (number_of nets.now n)) names.now) }
{
    for name in names {
        stack.push(named(*name, nets, starts, marks))?;
    }
    Ok(())
}

fn push_picked(
    bits: &[WordBit],
    rows: &[MarkRow],
    stack: &mut Vec<Option<u32>>,
) -> Result<(), Memory>
    ensures { OnOk result (stack.new.items ≡ stack.old.items ++ map
        (λ (b : WordBitValue). rows_mark rows.now b.word b.bit) bits.now) }
{
    for bit in bits {
        stack.push(picked(*bit, rows))?;
    }
    Ok(())
}

/// Puts the marks of a word's bits onto the stack.
#[cycle(words)]
fn push_word(
    way: Way,
    word: &Word,
    nets: &[NetInfo],
    starts: &[u32],
    marks: &[Option<u32>],
    rows: &[MarkRow],
    stack: &mut Vec<Option<u32>>,
) -> Result<(), Memory>
    requires fitting { IsFitting nets.now (tree_of word.now) }
    requires starts { BeginAt nets.now starts.now }
    requires bits { length marks.now ≡ bits_of nets.now }
    ensures { OnOk result (GrowsBy (carried way (λ n. mark_of marks.now (number_of nets.now n))
        (rows_mark rows.now) (tree_of word.now)) (width (tree_of word.now)) stack.old.items
        stack.new.items) }
{
    let from = stack.len();
    match word {
        Word::Const(bits) => push_none(bits.len(), stack),
        Word::Read(names) => push_named(names.as_slice(), nets, starts, marks, stack),
        Word::Pick(bits) => push_picked(bits.as_slice(), rows, stack),
        Word::Not(a) => {
            push_word(way, a.get(), nets, starts, marks, rows, stack)?;
            mix_in(way, stack, from, None);
            Ok(())
        }
        Word::Neg(a) => {
            push_word(way, a.get(), nets, starts, marks, rows, stack)?;
            mix_up(way, stack, from);
            Ok(())
        }
        Word::Binary(op, a, b) => {
            push_word(way, a.get(), nets, starts, marks, rows, stack)?;
            let right = stack.len();
            push_word(way, b.get(), nets, starts, marks, rows, stack)?;
            operate(way, *op, stack, from, right)
        }
        Word::Reduce(_, a) => {
            push_word(way, a.get(), nets, starts, marks, rows, stack)?;
            let all = mix_all(way, stack, from, stack.len() - from);
            leave_one(stack, from, all)
        }
        Word::Mux(c, a, b) => {
            push_word(way, a.get(), nets, starts, marks, rows, stack)?;
            let right = stack.len();
            push_word(way, b.get(), nets, starts, marks, rows, stack)?;
            combine(way, stack, from, right);
            push_word(way, c.get(), nets, starts, marks, rows, stack)?;
            let condition = mix_all(way, stack, right, stack.len() - right);
            drop_from(stack, right);
            mix_in(way, stack, from, condition);
            Ok(())
        }
        Word::Concat(parts) => {
            push_parts(way, parts.as_slice(), nets, starts, marks, rows, stack)
        }
        Word::Extend(a, count) => {
            push_word(way, a.get(), nets, starts, marks, rows, stack)?;
            extend(stack, from, *count as usize)
        }
    }
}

/// Puts the marks of the bits of words onto the stack, those of the last word lowest.
#[cycle(words)]
fn push_parts(
    way: Way,
    parts: &[Word],
    nets: &[NetInfo],
    starts: &[u32],
    marks: &[Option<u32>],
    rows: &[MarkRow],
    stack: &mut Vec<Option<u32>>,
) -> Result<(), Memory>
    requires fitting { IsFitting nets.now (join_all (trees_of parts.now)) }
    requires starts { BeginAt nets.now starts.now }
    requires bits { length marks.now ≡ bits_of nets.now }
    ensures { OnOk result (GrowsBy (carried way (λ n. mark_of marks.now (number_of nets.now n))
        (rows_mark rows.now) (join_all (trees_of parts.now)))
        (width (join_all (trees_of parts.now))) stack.old.items stack.new.items) }
{
    for turn in 0..parts.len() {
        let part = &parts[parts.len() - 1 - turn];
        push_word(way, part, nets, starts, marks, rows, stack)?;
    }
    Ok(())
}

/// The marks of a word's bits.
fn carry_word(
    alloc: Global,
    way: Way,
    word: &Word,
    nets: &[NetInfo],
    starts: &[u32],
    marks: &[Option<u32>],
    rows: &[MarkRow],
) -> Result<MarkRow, Memory>
    requires fitting { IsFitting nets.now (tree_of word.now) }
    requires starts { BeginAt nets.now starts.now }
    requires bits { length marks.now ≡ bits_of nets.now }
    ensures { IfOk result (λ row. (j : ℕ) → j < width (tree_of word.now) →
        mark_of row j ≡ carried way (λ n. mark_of marks.now (number_of nets.now n))
        (rows_mark rows.now) (tree_of word.now) j) }
{
    let mut stack = Vec::new(alloc);
    push_word(way, word, nets, starts, marks, rows, &mut stack)?;
    Ok(MarkRow::from_vec(stack))
}

/// The marks of the bits of all words, where those of the nets' bits are `marks`.
pub fn carry(
    alloc: Global,
    way: Way,
    words: &[Word],
    nets: &[NetInfo],
    starts: &[u32],
    marks: &[Option<u32>],
) -> Result<Vec<MarkRow>, Memory>
    requires words { AreWords nets.now (trees_of words.now) }
    requires starts { BeginAt nets.now starts.now }
    requires bits { length marks.now ≡ bits_of nets.now }
    ensures { IfOk result (λ rows. HasRows way (λ n. mark_of marks.now (number_of nets.now n))
        (trees_of words.now) (length words.now) rows.items) }
{
    let mut rows = Vec::with_capacity(alloc, words.len())?;
    for word in words {
        let row = carry_word(alloc, way, word, nets, starts, marks, &rows)?;
        rows.push(row)?;
    }
    Ok(rows)
}

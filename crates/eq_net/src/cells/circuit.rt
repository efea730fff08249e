//! All words of a netlist as cells, but those that are marked, whose bits are constants.

ghost use Rattle.std.specs.Prelude.{◌≡◌, ℕ, ◌+◌, ◌<◌, ◌^◌, [], IfOk, OnOk, length, slice_index_or, true};
ghost use Rattle.eq_model.specs.Frames.{values};
ghost use Rattle.eq_net.specs.Cycles.{word_values};
ghost use Rattle.eq_net.specs.Meaning.{width};
ghost use Rattle.eq_net.specs.Net.{bits_of, word_at};
ghost use Rattle.eq_net.specs.Tree.{tree_of};
ghost use Rattle.eq_net.specs.Whole.{parts_of};
ghost use Rattle.eq_net.specs.inner.Cells.{Computes, Grown, Spells, Valuation};
ghost use Rattle.eq_net.specs.inner.Circuits.{AreRight, HasRows, bits_in, constant_number};
ghost use Rattle.eq_net.specs.inner.Marks.{AreWhole};
ghost use Rattle.eq_net.specs.inner.Sized.{AreStarts, IsSized};

use super::gates::Cell;
use super::words::{push_cells, push_constants};
use crate::net::Net;
use crate::readiness::is_marked;
use crate::types::{NetInfo, NetNumbers, Word};
use eq_base::{Bits, Memory};
use std::alloc::Global;

/// The cells of all words, and for each word the numbers of those of its bits.
#[derive(Debug, Drop)]
pub struct Circuit {
    pub cells: Vec<Cell>,
    pub rows: Vec<NetNumbers>,
}

/// The numbers of the constants that these bits are.
fn constants(alloc: Global, bits: &Bits) -> Result<NetNumbers, Memory>
    ensures size { IfOk result (λ row. length row ≡ length bits.now) }
    ensures each { IfOk result (λ row. (j : ℕ) → j < length bits.now →
        slice_index_or row j 0 ≡ constant_number (values bits.now j)) }
{
    let mut stack = Vec::new(alloc);
    push_constants(bits.as_slice(), &mut stack)?;
    Ok(NetNumbers::from_vec(stack))
}

/// The cells of a word.
fn put_word(
    alloc: Global,
    word: &Word,
    nets: &[NetInfo],
    starts: &[u32],
    rows: &[NetNumbers],
    cells: &mut Vec<Cell>,
) -> Result<NetNumbers, Memory>
    requires sized { IsSized nets.now (tree_of word.now) }
    requires starts { AreStarts nets.now starts.now }
    requires few { bits_of nets.now < 2 ^ 32 }
    ensures grown { OnOk result (Grown cells.old.items cells.new.items) }
    ensures size { IfOk result (λ row. length row ≡ width (tree_of word.now)) }
    ensures spells { IfOk result (λ row. Spells cells.new.items row 0 (width (tree_of word.now))
        (bits_in nets.now rows.now (tree_of word.now))) }
{
    let mut stack = Vec::new(alloc);
    push_cells(word, nets, starts, rows, cells, &mut stack)?;
    Ok(NetNumbers::from_vec(stack))
}

/// The numbers of the cells of the bits of a word of the netlist.
fn put_open(
    alloc: Global,
    net: &Net,
    number: usize,
    starts: &[u32],
    rows: &[NetNumbers],
    cells: &mut Vec<Cell>,
) -> Result<NetNumbers, Memory>
    requires number { number < length net.now.words }
    requires starts { AreStarts net.now.nets starts.now }
    ensures grown { OnOk result (Grown cells.old.items cells.new.items) }
    ensures size { IfOk result (λ row.
        length row ≡ width (word_at (parts_of net.now).words number)) }
    ensures each { IfOk result (λ row. (v : Valuation) → Computes cells.new.items v →
        AreRight (parts_of net.now) v number rows.now →
        (j : ℕ) → j < width (word_at (parts_of net.now).words number) →
        v.cells (slice_index_or row j 0) ≡ word_values (parts_of net.now) v.bits number j) }
{
    let word = &net.words.as_slice()[number];
    put_word(alloc, word, net.nets.as_slice(), starts, rows, cells)
}

/// The numbers of the cells of a word's bits, which are constants where the word is marked.
fn put_row(
    alloc: Global,
    net: &Net,
    number: usize,
    starts: &[u32],
    words: &[Bits],
    whole: &[bool],
    rows: &[NetNumbers],
    cells: &mut Vec<Cell>,
) -> Result<NetNumbers, Memory>
    requires number { number < length net.now.words }
    requires starts { AreStarts net.now.nets starts.now }
    requires sizes { (w : ℕ) → values whole.now w ≡ true →
        length (slice_index_or words.now w []) ≡ width (word_at (parts_of net.now).words w) }
    ensures grown { OnOk result (Grown cells.old.items cells.new.items) }
    ensures size { IfOk result (λ row.
        length row ≡ width (word_at (parts_of net.now).words number)) }
    ensures each { IfOk result (λ row. (v : Valuation) → Computes cells.new.items v →
        AreWhole (parts_of net.now) v.bits words.now whole.now →
        AreRight (parts_of net.now) v number rows.now →
        (j : ℕ) → j < width (word_at (parts_of net.now).words number) →
        v.cells (slice_index_or row j 0) ≡ word_values (parts_of net.now) v.bits number j) }
{
    if is_marked(whole, number) && number < words.len() {
        constants(alloc, &words[number])
    } else {
        put_open(alloc, net, number, starts, rows, cells)
    }
}

/// The cells of all words.
pub fn all_cells(
    alloc: Global,
    net: &Net,
    starts: &[u32],
    words: &[Bits],
    whole: &[bool],
) -> Result<Circuit, Memory>
    requires starts { AreStarts net.now.nets starts.now }
    requires sizes { (w : ℕ) → values whole.now w ≡ true →
        length (slice_index_or words.now w []) ≡ width (word_at (parts_of net.now).words w) }
    ensures { IfOk result (λ made. HasRows (parts_of net.now) words.now whole.now
        (length net.now.words) made.cells.items made.rows.items) }
{
    let mut cells = Vec::new(alloc);
    let mut rows = Vec::with_capacity(alloc, net.words.len())?;
    for number in 0..net.words.len() {
        let row = put_row(alloc, net, number, starts, words, whole, &rows, &mut cells)?;
        rows.push(row)?;
    }
    Ok(Circuit { cells, rows })
}

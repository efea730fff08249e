//! The nodes of words. Each word is gone over once, from its operands up, and the nodes of its bits are put behind those of the
//! words before it.

ghost use Rattle.std.specs.Prelude.{◌≡◌, ℕ, ◌+◌, ◌<◌, ◌≤◌, ◌^◌, All, [], IfOk, OnOk, length};
ghost use Rattle.eq_net.specs.Net.{AreWords, HasBit, IsWord, bits_of, number_of};
ghost use Rattle.eq_net.specs.Tree.{join_all, tree_of, trees_of};
ghost use Rattle.eq_reads.specs.inner.Leading.{Appended, NodesGrew};
ghost use Rattle.eq_reads.specs.Words.{AreNodes, BeginAt, IsPlaced, IsReady, picked_node};
ghost use Rattle.eq_reads.specs.inner.Reading.{WordGrew, named_at, picked_at};

use crate::edges::add;
use crate::graph::Nodes;
use crate::nodes::{climb, combine, gather, mix};
use crate::operators::{operate, shape_of, whole};
use crate::row::{cut, fill, node_at, push};
use eq_base::Memory;
use eq_names::BitName;
use eq_net::laws::bits_stand_by_nets;
use eq_net::{NetInfo, Word, WordBit};
use std::alloc::Global;

/// The nodes of words: for each bit of each word a node that leads to what the bit reads.
#[derive(Debug, Drop)]
pub struct WordNodes {
    pub nodes: Nodes,
    /// Where the nodes of each word begin in `row`.
    pub places: Vec<usize>,
    /// The nodes of the words' bits, the lowest bit of each word first.
    pub row: Vec<usize>,
}

/// The number of a named bit.
pub fn named(name: BitName, nets: &[NetInfo], starts: &[usize]) -> usize
    requires named { HasBit nets.now name }
    requires starts { BeginAt nets.now starts.now }
    requires few { bits_of nets.now < 2 ^ 32 }
    ensures { result ≡ number_of nets.now name }
{
    bits_stand_by_nets();
    starts[name.net as usize] + name.bit as usize
}

/// The node of a bit of an earlier word.
pub fn picked(bit: WordBit, places: &[usize], row: &Vec<usize>) -> usize
    requires { IsPlaced places.now row.now.items bit }
    ensures { result ≡ picked_node places.now row.now.items bit }
{
    node_at(row, places[bit.word as usize] + bit.bit as usize)
}

/// Puts the nodes of named bits behind the others.
fn push_names(
    names: &[BitName],
    nets: &[NetInfo],
    starts: &[usize],
    row: &mut Vec<usize>,
) -> Result<(), Memory>
    requires names { All (HasBit nets.now) names.now }
    requires starts { BeginAt nets.now starts.now }
    requires few { bits_of nets.now < 2 ^ 32 }
    ensures { OnOk result (Appended row.old.items row.new.items (length names.now)
        (named_at nets.now names.now)) }
{
    for k in 0..names.len() {
        push(row, named(names[k], nets, starts))?;
    }
    Ok(())
}

/// Puts the nodes of bits of earlier words behind the others.
fn push_picks(bits: &[WordBit], places: &[usize], row: &mut Vec<usize>) -> Result<(), Memory>
    requires bits { All (IsPlaced places.now row.old.items) bits.now }
    ensures { OnOk result (Appended row.old.items row.new.items (length bits.now)
        (picked_at places.now row.old.items bits.now)) }
{
    for k in 0..bits.len() {
        let node = picked(bits[k], places, row);
        push(row, node)?;
    }
    Ok(())
}

/// Puts the nodes of a word's bits behind the others.
#[cycle(words)]
pub fn push_word(
    word: &Word,
    nets: &[NetInfo],
    words: &[Word],
    starts: &[usize],
    places: &[usize],
    nodes: &mut Nodes,
    row: &mut Vec<usize>,
) -> Result<(), Memory>
    requires word { IsWord nets.now (trees_of words.now) (length places.now)
        (tree_of word.now) }
    requires starts { BeginAt nets.now starts.now }
    requires few { bits_of nets.now < 2 ^ 32 }
    requires ready { IsReady nets.now (trees_of words.now) places.now nodes.old row.old.items }
    ensures { OnOk result (WordGrew nets.now (trees_of words.now) places.now nodes.old row.old.items
        nodes.new row.new.items (tree_of word.now)) }
{
    let from = row.len();
    let none = nodes.none;
    match word {
        Word::Const(bits) => fill(row, none, bits.len()),
        Word::Read(names) => push_names(names.as_slice(), nets, starts, row),
        Word::Pick(bits) => push_picks(bits.as_slice(), places, row),
        Word::Not(a) => push_word(a.get(), nets, words, starts, places, nodes, row),
        Word::Neg(a) => {
            push_word(a.get(), nets, words, starts, places, nodes, row)?;
            climb(from, none, nodes, row)
        }
        Word::Binary(op, a, b) => {
            push_word(a.get(), nets, words, starts, places, nodes, row)?;
            let right = row.len();
            push_word(b.get(), nets, words, starts, places, nodes, row)?;
            operate(shape_of(*op), from, right, nodes, row)
        }
        Word::Reduce(_, a) => {
            push_word(a.get(), nets, words, starts, places, nodes, row)?;
            whole(from, nodes, row)
        }
        Word::Mux(c, a, b) => {
            push_word(c.get(), nets, words, starts, places, nodes, row)?;
            let condition = gather(from, nodes, row)?;
            cut(row, from);
            push_word(a.get(), nets, words, starts, places, nodes, row)?;
            let middle = row.len();
            push_word(b.get(), nets, words, starts, places, nodes, row)?;
            combine(from, middle, nodes, row)?;
            mix(from, condition, nodes, row)
        }
        Word::Concat(parts) => push_parts(
            parts.as_slice(),
            nets,
            words,
            starts,
            places,
            nodes,
            row,
        ),
        Word::Extend(a, count) => {
            push_word(a.get(), nets, words, starts, places, nodes, row)?;
            let end = row.len();
            fill(row, none, *count as usize - (end - from))
        }
    }
}

/// The same of words that are joined, the last of which has the lowest bits.
#[cycle(words)]
fn push_parts(
    parts: &[Word],
    nets: &[NetInfo],
    words: &[Word],
    starts: &[usize],
    places: &[usize],
    nodes: &mut Nodes,
    row: &mut Vec<usize>,
) -> Result<(), Memory>
    requires word { IsWord nets.now (trees_of words.now) (length places.now)
        (join_all (trees_of parts.now)) }
    requires starts { BeginAt nets.now starts.now }
    requires few { bits_of nets.now < 2 ^ 32 }
    requires ready { IsReady nets.now (trees_of words.now) places.now nodes.old row.old.items }
    ensures { OnOk result (WordGrew nets.now (trees_of words.now) places.now nodes.old row.old.items
        nodes.new row.new.items (join_all (trees_of parts.now))) }
{
    for turn in 0..parts.len() {
        push_word(
            &parts[parts.len() - 1 - turn],
            nets,
            words,
            starts,
            places,
            nodes,
            row,
        )?;
    }
    Ok(())
}

/// Where the bits of each net begin.
pub fn starts(alloc: Global, nets: &[NetInfo]) -> Result<Vec<usize>, Memory>
    requires { bits_of nets.now < 2 ^ 32 }
    ensures { IfOk result (λ starts. BeginAt nets.now starts.items) }
{
    bits_stand_by_nets();
    let mut starts = Vec::with_capacity(alloc, nets.len())?;
    let mut next: usize = 0;
    for net in nets {
        starts.push(next)?;
        next += net.width() as usize;
    }
    Ok(starts)
}

/// Puts the nodes of all words behind one another, and keeps where those of each begin.
fn push_words(
    nets: &[NetInfo],
    words: &[Word],
    starts: &[usize],
    places: &mut Vec<usize>,
    nodes: &mut Nodes,
    row: &mut Vec<usize>,
) -> Result<(), Memory>
    requires words { AreWords nets.now (trees_of words.now) }
    requires starts { BeginAt nets.now starts.now }
    requires few { bits_of nets.now < 2 ^ 32 }
    requires none { places.old.items ≡ [] }
    requires ready { IsReady nets.now (trees_of words.now) places.old.items nodes.old row.old.items }
    ensures count { OnOk result (length places.new.items ≡ length (trees_of words.now)) }
    ensures grew { OnOk result (NodesGrew nodes.old nodes.new) }
    ensures ready { OnOk result (IsReady nets.now (trees_of words.now) places.new.items nodes.new
        row.new.items) }
{
    for w in 0..words.len() {
        let begin = row.len();
        push_word(
            &words[w],
            nets,
            words,
            starts,
            places.as_slice(),
            nodes,
            row,
        )?;
        push(places, begin)?;
    }
    Ok(())
}

/// The node that leads to nothing, behind the first ones.
fn no_nodes(alloc: Global, first: usize) -> Result<Nodes, Memory>
    ensures are { IfOk result (λ nodes. AreNodes nodes) }
    ensures none { IfOk result (λ nodes. nodes.none ≡ first) }
{
    let next = add(first, 1)?;
    let edges = Vec::new(alloc);
    Ok(Nodes {
        edges,
        none: first,
        next,
    })
}

/// The nodes of all words, behind the first ones.
pub fn word_nodes(
    alloc: Global,
    first: usize,
    nets: &[NetInfo],
    words: &[Word],
    starts: &[usize],
) -> Result<WordNodes, Memory>
    requires words { AreWords nets.now (trees_of words.now) }
    requires starts { BeginAt nets.now starts.now }
    requires few { bits_of nets.now < 2 ^ 32 }
    requires first { bits_of nets.now ≤ first }
    ensures none { IfOk result (λ all. all.nodes.none ≡ first) }
    ensures count { IfOk result (λ all. length all.places.items ≡ length (trees_of words.now)) }
    ensures ready { IfOk result (λ all. IsReady nets.now (trees_of words.now) all.places.items all.nodes
        all.row.items) }
{
    let mut nodes = no_nodes(alloc, first)?;
    let mut places = Vec::new(alloc);
    let mut row = Vec::new(alloc);
    push_words(nets, words, starts, &mut places, &mut nodes, &mut row)?;
    Ok(WordNodes { nodes, places, row })
}

//! All words evaluated once, each behind those that it reads. Bits and words are marked that have their final values: a word
//! is evaluated where all that it reads is marked, and then it and the bits that it drives are marked.

ghost use Rattle.std.specs.Prelude.{◌≡◌, ◌≢◌, ℕ, ◌<◌, [], IfOk, IfSome, OnOk, false, length, slice_index_or, true};
ghost use Rattle.eq_model.specs.Frames.{values};
ghost use Rattle.eq_model.specs.System.{IsHeld, Values};
ghost use Rattle.eq_net.specs.Cycles.{word_values};
ghost use Rattle.eq_net.specs.Meaning.{width};
ghost use Rattle.eq_net.specs.Net.{bits_of, system_of, word_at};
ghost use Rattle.eq_net.specs.Whole.{parts_of};
ghost use Rattle.eq_net.specs.inner.Circuits.{IsSwept};
ghost use Rattle.eq_net.specs.inner.Marks.{AreMarked, AreWhole};
ghost use Rattle.eq_net.specs.inner.Sized.{AreStarts};

use crate::chains::driven_chains;
use crate::marking::{given_marks, put_chain};
use crate::net::Net;
use crate::ordering::word_order;
use crate::readiness::{are_all, is_ready};
use crate::word::evaluate;
use eq_base::{Bits, Memory};
use std::alloc::Global;

/// Keeps the bits of a word, which is marked.
fn keep(bits: Bits, word: usize, words: &mut Vec<Bits>, whole: &mut Vec<bool>)
    requires word { word < length words.old.items }
    requires mark { word < length whole.old.items }
    ensures bits { slice_index_or words.new.items word [] ≡ bits }
    ensures words { (w : ℕ) → w ≢ word →
        slice_index_or words.new.items w [] ≡ slice_index_or words.old.items w [] }
    ensures marks { (w : ℕ) → w ≢ word → values whole.new.items w ≡ values whole.old.items w }
    ensures size { length words.new.items ≡ length words.old.items }
    ensures count { length whole.new.items ≡ length whole.old.items }
{
    words[word] = bits;
    whole[word] = true;
}

/// The bits of a word, where all that it reads is marked.
fn ready_bits(
    alloc: Global,
    net: &Net,
    starts: &[u32],
    word: usize,
    words: &[Bits],
    whole: &[bool],
    now: &[bool],
    done: &[bool],
) -> Result<Option<Bits>, Memory>
    requires word { word < length net.now.words }
    requires starts { AreStarts net.now.nets starts.now }
    requires bits { length now.now ≡ bits_of net.now.nets }
    requires marks { length done.now ≡ bits_of net.now.nets }
    ensures size { IfOk result (λ found. IfSome found (λ bits.
        length bits ≡ width (word_at (parts_of net.now).words word))) }
    ensures each { IfOk result (λ found. IfSome found (λ bits. (v : Values) (j : ℕ) →
        AreMarked v now.now done.now → AreWhole (parts_of net.now) v words.now whole.now →
        j < width (word_at (parts_of net.now).words word) →
        values bits j ≡ word_values (parts_of net.now) v word j)) }
{
    let nets = net.nets.as_slice();
    let tree = &net.words.as_slice()[word];
    if !is_ready(tree, nets, starts, done, whole) {
        return Ok(None);
    }
    let bits = evaluate(alloc, tree, nets, starts, now, words)?;
    Ok(Some(bits))
}

/// Evaluates a word, where all that it reads is marked, and marks it.
fn evaluate_ready(
    alloc: Global,
    net: &Net,
    starts: &[u32],
    word: usize,
    words: &mut Vec<Bits>,
    whole: &mut Vec<bool>,
    now: &[bool],
    done: &[bool],
) -> Result<(), Memory>
    requires starts { AreStarts net.now.nets starts.now }
    requires bits { length now.now ≡ bits_of net.now.nets }
    requires marks { length done.now ≡ bits_of net.now.nets }
    ensures whole { OnOk result ((v : Values) → AreMarked v now.now done.now →
        AreWhole (parts_of net.now) v words.old.items whole.old.items →
        AreWhole (parts_of net.now) v words.new.items whole.new.items) }
    ensures size { OnOk result (length words.new.items ≡ length words.old.items) }
    ensures count { OnOk result (length whole.new.items ≡ length whole.old.items) }
{
    if word >= net.words.len() || word >= words.len() || word >= whole.len() {
        return Ok(());
    }
    match ready_bits(alloc, net, starts, word, words, whole, now, done)? {
        Some(bits) => {
            keep(bits, word, words, whole);
            Ok(())
        }
        None => Ok(()),
    }
}

/// Evaluates words in turn, those of which all that they read is marked, and marks them and the bits that they drive.
fn sweep_words(
    alloc: Global,
    net: &Net,
    starts: &[u32],
    order: &[u32],
    words: &mut Vec<Bits>,
    whole: &mut Vec<bool>,
    now: &mut [bool],
    done: &mut Vec<bool>,
) -> Result<(), Memory>
    requires starts { AreStarts net.now.nets starts.now }
    requires bits { length now.old ≡ bits_of net.now.nets }
    requires marks { length done.old.items ≡ bits_of net.now.nets }
    ensures held { OnOk result ((k : ℕ) → IsHeld ((system_of (parts_of net.now)).driver k) →
        values now.new k ≡ values now.old k) }
    ensures swept { OnOk result
        (IsSwept (parts_of net.now) now.old done.old.items words.old.items whole.old.items →
        IsSwept (parts_of net.now) now.new done.new.items words.new.items whole.new.items) }
    ensures size { OnOk result (length words.new.items ≡ length words.old.items) }
    ensures count { OnOk result (length whole.new.items ≡ length whole.old.items) }
    ensures marks { OnOk result (length done.new.items ≡ length done.old.items) }
{
    let chains = driven_chains(alloc, net.drivers.as_slice(), net.words.len())?;
    for word in order {
        let word = *word as usize;
        evaluate_ready(alloc, net, starts, word, words, whole, now, done)?;
        put_chain(net, words, whole, &chains, word, now, done);
    }
    Ok(())
}

/// As many empty lists as there are words.
fn no_bits(alloc: Global, count: usize) -> Result<Vec<Bits>, Memory>
    ensures { IfOk result (λ words. length words.items ≡ count) }
{
    let mut words = Vec::with_capacity(alloc, count)?;
    for _ in 0..count {
        words.push(Bits::new(alloc))?;
    }
    Ok(words)
}

/// As many marks that aren't set.
fn no_marks(alloc: Global, count: usize) -> Result<Vec<bool>, Memory>
    ensures size { IfOk result (λ marks. length marks.items ≡ count) }
    ensures none { IfOk result (λ marks. (w : ℕ) → values marks.items w ≡ false) }
{
    let mut marks = Vec::with_capacity(alloc, count)?;
    for _ in 0..count {
        marks.push(false)?;
    }
    Ok(marks)
}

/// The bits of words, and which words and bits of nets are marked.
#[derive(Debug, Drop)]
pub struct Swept {
    pub words: Vec<Bits>,
    pub whole: Vec<bool>,
    pub done: Vec<bool>,
}

/// Evaluates each word once, behind those that it reads where there is such an order. What is marked has its final value.
/// What a cycle doesn't compute stays.
pub fn sweep_all(
    alloc: Global,
    net: &Net,
    starts: &[u32],
    now: &mut [bool],
) -> Result<Swept, Memory>
    requires starts { AreStarts net.now.nets starts.now }
    requires bits { length now.old ≡ bits_of net.now.nets }
    ensures held { OnOk result ((k : ℕ) → IsHeld ((system_of (parts_of net.now)).driver k) →
        values now.new k ≡ values now.old k) }
    ensures swept { IfOk result (λ s.
        IsSwept (parts_of net.now) now.new s.done.items s.words.items s.whole.items) }
    ensures bits { IfOk result (λ s. length s.done.items ≡ bits_of net.now.nets) }
    ensures words { IfOk result (λ s. length s.words.items ≡ length net.now.words) }
    ensures marks { IfOk result (λ s. length s.whole.items ≡ length net.now.words) }
{
    let order = word_order(alloc, net, starts)?;
    let mut words = no_bits(alloc, net.words.len())?;
    let mut whole = no_marks(alloc, net.words.len())?;
    let mut done = given_marks(alloc, net, now)?;
    sweep_words(
        alloc, net, starts, &order, &mut words, &mut whole, now, &mut done,
    )?;
    Ok(Swept { words, whole, done })
}

/// Whether all bits and all words are marked.
pub fn is_done(swept: &Swept) -> bool
    ensures bits { result ≡ true → (b : ℕ) → b < length swept.now.done.items →
        values swept.now.done.items b ≡ true }
    ensures words { result ≡ true → (w : ℕ) → w < length swept.now.whole.items →
        values swept.now.whole.items w ≡ true }
{
    are_all(&swept.done) && are_all(&swept.whole)
}

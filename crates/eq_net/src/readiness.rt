//! Whether all that a word reads has its value already.

ghost use Rattle.std.specs.Prelude.{◌≡◌, ◌<◌, ℕ, All, length, true};
ghost use Rattle.eq_model.specs.Frames.{values};
ghost use Rattle.eq_net.specs.Net.{HasBit, bits_of, number_of};
ghost use Rattle.eq_net.specs.Tree.{join_all, tree_of, trees_of};
ghost use Rattle.eq_net.specs.inner.Marks.{IsReady};
ghost use Rattle.eq_net.specs.inner.Sized.{AreStarts, IsSized};

use crate::types::{NetInfo, Word, WordBit};
use crate::word::named;
use eq_names::BitName;

/// Whether all named bits are marked.
fn are_done(names: &[BitName], nets: &[NetInfo], starts: &[u32], done: &[bool]) -> bool
    requires named { All (HasBit nets.now) names.now }
    requires starts { AreStarts nets.now starts.now }
    requires bits { length done.now ≡ bits_of nets.now }
    ensures { result ≡ true → All (λ n. values done.now (number_of nets.now n) ≡ true) names.now }
{
    for name in names {
        if !named(*name, nets, starts, done) {
            return false;
        }
    }
    true
}

/// Whether a place is there and marked.
pub fn is_marked(marks: &[bool], at: usize) -> bool
    ensures { result ≡ values marks.now at }
{
    match marks.get(at) {
        Some(mark) => *mark,
        None => false,
    }
}

/// Whether all are marked.
pub fn are_all(marks: &[bool]) -> bool
    ensures { result ≡ true → (k : ℕ) → k < length marks.now → values marks.now k ≡ true }
{
    for mark in marks {
        if !*mark {
            return false;
        }
    }
    true
}

/// Whether all words of which bits are picked are marked.
fn are_whole(bits: &[WordBit], whole: &[bool]) -> bool
    ensures { result ≡ true → All (λ (b : WordBit). values whole.now b.word ≡ true) bits.now }
{
    for bit in bits {
        if !is_marked(whole, bit.word as usize) {
            return false;
        }
    }
    true
}

/// Whether all bits that a word reads are marked, and all words of which it picks bits.
#[cycle(readiness)]
pub fn is_ready(
    word: &Word,
    nets: &[NetInfo],
    starts: &[u32],
    done: &[bool],
    whole: &[bool],
) -> bool
    requires sized { IsSized nets.now (tree_of word.now) }
    requires starts { AreStarts nets.now starts.now }
    requires bits { length done.now ≡ bits_of nets.now }
    ensures { result ≡ true → IsReady (number_of nets.now) done.now whole.now (tree_of word.now) }
{
    match word {
        Word::Const(_) => true,
        Word::Read(names) => are_done(names.as_slice(), nets, starts, done),
        Word::Pick(bits) => are_whole(bits.as_slice(), whole),
        Word::Not(a) => is_ready(a.get(), nets, starts, done, whole),
        Word::Neg(a) => is_ready(a.get(), nets, starts, done, whole),
        Word::Binary(_, a, b) => {
            is_ready(a.get(), nets, starts, done, whole)
                & is_ready(b.get(), nets, starts, done, whole)
        }
        Word::Reduce(_, a) => is_ready(a.get(), nets, starts, done, whole),
        Word::Mux(c, a, b) => {
            is_ready(c.get(), nets, starts, done, whole)
                & is_ready(a.get(), nets, starts, done, whole)
                & is_ready(b.get(), nets, starts, done, whole)
        }
        Word::Concat(parts) => are_ready(parts.as_slice(), nets, starts, done, whole),
        Word::Extend(a, _) => is_ready(a.get(), nets, starts, done, whole),
    }
}

/// The same of the words that are joined.
#[cycle(readiness)]
fn are_ready(
    parts: &[Word],
    nets: &[NetInfo],
    starts: &[u32],
    done: &[bool],
    whole: &[bool],
) -> bool
    requires sized { IsSized nets.now (join_all (trees_of parts.now)) }
    requires starts { AreStarts nets.now starts.now }
    requires bits { length done.now ≡ bits_of nets.now }
    ensures { result ≡ true →
        IsReady (number_of nets.now) done.now whole.now (join_all (trees_of parts.now)) }
{
    for part in parts {
        if !is_ready(part, nets, starts, done, whole) {
            return false;
        }
    }
    true
}

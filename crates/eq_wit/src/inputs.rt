//! The line of a node that is an input.

ghost use Rattle.std.specs.Prelude.{◌≡◌, ◌<◌, ◌+◌, ◌^◌, ℕ, List, [], ◌∷◌, MatchOption, MatchResult, Some, codes, false, length, slice_get, suc, true};
ghost use Rattle.eq_wit.specs.declared.state.State.TheVariants as XState;
ghost use Rattle.eq_wit.specs.Texts.{node_line};
ghost use Rattle.eq_wit.specs.inner.Items as spec;
ghost use Rattle.eq_wit.specs.inner.Judging.{IsFaulty, StopsBy};
ghost use Rattle.eq_wit.specs.inner.Reading.{MayStand};
ghost use Rattle.eq_wit.specs.inner.Standing.{Stands};

use crate::dividing::{Words, keyed};
use crate::items::wrong;
use crate::nodes::{below, gate};
use crate::state::{Draft, Stop};
use crate::types::WitKind;
use eq_base::Bits;
use eq_bits::Node;

/// The first input without a node.
fn free(seen: &Bits) -> Option<usize>
    ensures { MatchOption result ((i : ℕ) → i < length seen.now → slice_get seen.now i ≡ Some true)
        (λ i. slice_get seen.now i ≡ Some false) }
{
    let marks = seen.as_slice();
    for (i, mark) in marks.iter().enumerate() {
        if !*mark {
            return Some(i);
        }
    }
    None
}

/// What is wrong where a word is the number of no input.
fn wrong_input(word: &[u8], seen: &Bits) -> Stop
    ensures { spec.IsWrongInput seen.now word.now result }
{
    match free(seen) {
        None => Stop::Fault(WitKind::Word),
        Some(_i) => wrong(word),
    }
}

/// An input. Where it has a node already, the line is wrong in a word.
fn input(words: &Words, word: &[u8], d: &Draft, seen: &Bits, left: u32) -> Result<Node, Stop>
    requires words { words.now ≡ codes "input" ∷ word.now ∷ [] }
    requires stands { Stands (XState.Nodes d.now seen.now (suc left)) }
    ensures { MatchResult result
        (spec.IsItem node_line (MayStand d.now (length d.now.nodes + suc left)) words.now)
        (StopsBy (IsFaulty (XState.Nodes d.now seen.now (suc left)) words.now)) }
{
    let Some(i) = below(word, d.inputs.len() as u32) else {
        return Err(wrong_input(word, seen));
    };
    if seen.as_slice()[i as usize] {
        return Err(Stop::Fault(WitKind::Word));
    }
    Ok(Node::Input(i))
}

/// A node.
pub fn node(words: &Words, d: &Draft, seen: &Bits, left: u32) -> Result<Node, Stop>
    requires stands { Stands (XState.Nodes d.now seen.now (suc left)) }
    ensures { MatchResult result
        (spec.IsItem node_line (MayStand d.now (length d.now.nodes + suc left)) words.now)
        (StopsBy (IsFaulty (XState.Nodes d.now seen.now (suc left)) words.now)) }
{
    if let Some(word) = keyed(words, b"input") {
        return input(words, word, d, seen, left);
    }
    gate(words, d, d.nodes.len() as u32 + 1 + left)
}

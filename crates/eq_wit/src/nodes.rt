//! The line of a node that is no input.

ghost use Rattle.std.specs.Prelude.{◌≡◌, ◌≢◌, ◌<◌, ◌^◌, ℕ, List, [], ◌∷◌, MatchOption, codes, length};
ghost use Rattle.std.specs.Fmt.{decimal};
ghost use Rattle.eq_wit.specs.Texts.{digit_of, node_line};
ghost use Rattle.eq_wit.specs.inner.Items as spec;
ghost use Rattle.eq_wit.specs.inner.Reading.{MayStand};

use crate::dividing::{Words, keyed, three_behind, two_behind};
use crate::items::{up_to, wrong_from};
use crate::state::{Draft, Stop};
use crate::truths::digit;
use crate::types::WitKind;
use eq_bits::Node;

/// The number below a bound that a word is.
pub fn below(word: &[u8], bound: u32) -> Option<u32>
    ensures { MatchOption result ((n : ℕ) → n < bound → word.now ≢ decimal n)
        (λ n. (word.now ≡ decimal n) × (n < bound)) }
{
    if bound == 0 {
        return None;
    }
    up_to(word, bound - 1)
}

/// What is wrong where an operand isn't the number of an earlier node. Where there is none, no such line may stand.
fn wrong_operand(words: &Words, earlier: u32) -> Stop
    ensures { spec.IsWrongOperand earlier words.now result }
{
    if earlier == 0 {
        return Stop::Fault(WitKind::Word);
    }
    wrong_from(words, 1)
}

/// The number of an earlier node.
fn operand(word: &[u8], d: &Draft) -> Option<u32>
    requires { length d.now.nodes < 2 ^ 32 }
    ensures { MatchOption result ((n : ℕ) → n < length d.now.nodes → word.now ≢ decimal n)
        (λ n. (word.now ≡ decimal n) × (n < length d.now.nodes)) }
{
    below(word, d.nodes.len() as u32)
}

/// What is wrong where an operand isn't the number of a node of the draft.
fn wrong_in(words: &Words, d: &Draft) -> Stop
    requires { length d.now.nodes < 2 ^ 32 }
    ensures { spec.IsWrongOperand (length d.now.nodes) words.now result }
{
    wrong_operand(words, d.nodes.len() as u32)
}

/// A negation.
fn not(words: &Words, word: &[u8], d: &Draft, total: u32) -> Result<Node, Stop>
    requires words { words.now ≡ codes "not" ∷ word.now ∷ [] }
    requires ready { spec.IsReady d.now total }
    ensures { spec.ReadsLine node_line (MayStand d.now total) words.now result }
{
    match operand(word, d) {
        Some(a) => Ok(Node::Not(a)),
        None => Err(wrong_in(words, d)),
    }
}

/// A copy.
fn buf(words: &Words, word: &[u8], d: &Draft, total: u32) -> Result<Node, Stop>
    requires words { words.now ≡ codes "buf" ∷ word.now ∷ [] }
    requires ready { spec.IsReady d.now total }
    ensures { spec.ReadsLine node_line (MayStand d.now total) words.now result }
{
    match operand(word, d) {
        Some(a) => Ok(Node::Buf(a)),
        None => Err(wrong_in(words, d)),
    }
}

/// A conjunction.
fn and(words: &Words, first: &[u8], second: &[u8], d: &Draft, total: u32) -> Result<Node, Stop>
    requires words { words.now ≡ codes "and" ∷ first.now ∷ second.now ∷ [] }
    requires ready { spec.IsReady d.now total }
    ensures { spec.ReadsLine node_line (MayStand d.now total) words.now result }
{
    let Some(a) = operand(first, d) else {
        return Err(wrong_in(words, d));
    };
    match operand(second, d) {
        Some(b) => Ok(Node::And(a, b)),
        None => Err(wrong_in(words, d)),
    }
}

/// An exclusive or.
fn xor(words: &Words, first: &[u8], second: &[u8], d: &Draft, total: u32) -> Result<Node, Stop>
    requires words { words.now ≡ codes "xor" ∷ first.now ∷ second.now ∷ [] }
    requires ready { spec.IsReady d.now total }
    ensures { spec.ReadsLine node_line (MayStand d.now total) words.now result }
{
    let Some(a) = operand(first, d) else {
        return Err(wrong_in(words, d));
    };
    match operand(second, d) {
        Some(b) => Ok(Node::Xor(a, b)),
        None => Err(wrong_in(words, d)),
    }
}

/// A multiplexer.
fn mux(
    words: &Words,
    first: &[u8],
    second: &[u8],
    third: &[u8],
    d: &Draft,
    total: u32,
) -> Result<Node, Stop>
    requires words { words.now ≡ codes "mux" ∷ first.now ∷ second.now ∷ third.now ∷ [] }
    requires ready { spec.IsReady d.now total }
    ensures { spec.ReadsLine node_line (MayStand d.now total) words.now result }
{
    let Some(a) = operand(first, d) else {
        return Err(wrong_in(words, d));
    };
    let Some(b) = operand(second, d) else {
        return Err(wrong_in(words, d));
    };
    match operand(third, d) {
        Some(c) => Ok(Node::Mux(a, b, c)),
        None => Err(wrong_in(words, d)),
    }
}

/// A register.
fn reg(words: &Words, first: &[u8], second: &[u8], d: &Draft, total: u32) -> Result<Node, Stop>
    requires words { words.now ≡ codes "reg" ∷ first.now ∷ second.now ∷ [] }
    requires ready { spec.IsReady d.now total }
    ensures { spec.ReadsLine node_line (MayStand d.now total) words.now result }
{
    let Some(init) = digit(second) else {
        return Err(Stop::Fault(WitKind::Word));
    };
    match below(first, total) {
        Some(next) => Ok(Node::Reg { next, init }),
        None => Err(wrong_from(words, 1)),
    }
}

/// A constant.
fn constant(words: &Words, word: &[u8], d: &Draft, total: u32) -> Result<Node, Stop>
    requires words { words.now ≡ codes "const" ∷ word.now ∷ [] }
    requires ready { spec.IsReady d.now total }
    ensures { spec.ReadsLine node_line (MayStand d.now total) words.now result }
{
    match digit(word) {
        Some(bit) => Ok(Node::Const(bit)),
        None => Err(Stop::Fault(WitKind::Word)),
    }
}

/// A node that is no input.
pub fn gate(words: &Words, d: &Draft, total: u32) -> Result<Node, Stop>
    requires ready { spec.IsReady d.now total }
    requires input { (u : List ℕ) → words.now ≢ codes "input" ∷ u ∷ [] }
    ensures { spec.ReadsLine node_line (MayStand d.now total) words.now result }
{
    if let Some(word) = keyed(words, b"not") {
        return not(words, word, d, total);
    }
    if let Some(word) = keyed(words, b"buf") {
        return buf(words, word, d, total);
    }
    if let Some(word) = keyed(words, b"const") {
        return constant(words, word, d, total);
    }
    if let Some((first, second)) = two_behind(words, b"and") {
        return and(words, first, second, d, total);
    }
    if let Some((first, second)) = two_behind(words, b"xor") {
        return xor(words, first, second, d, total);
    }
    if let Some((first, second)) = two_behind(words, b"reg") {
        return reg(words, first, second, d, total);
    }
    if let Some((first, second, third)) = three_behind(words, b"mux") {
        return mux(words, first, second, third, d, total);
    }
    Err(Stop::Fault(WitKind::Word))
}

//! What the words of a line say, where lines of one kind may stand.

ghost use Rattle.std.specs.Prelude.{◌≡◌, ◌≢◌, ◌≤◌, ◌<◌, ◌^◌, ◌↔◌, ℕ, List, [], ◌∷◌, IsTrue, MatchOption, MatchResult, length};
ghost use Rattle.std.specs.Fmt.{decimal};
ghost use Rattle.eq_names.specs.Name.{IsName};
ghost use Rattle.eq_wit.specs.declared.types.WitKind.TheVariants.{Word as WrongWord};
ghost use Rattle.eq_wit.specs.Texts.{name_line, output_line};
ghost use Rattle.eq_wit.specs.inner.Items as spec;
ghost use Rattle.eq_wit.specs.inner.Judging.{StopsBy};
ghost use Rattle.eq_wit.specs.inner.Reading.{count_line, part_line};

use crate::dividing::{Words, is_name, keyed, one, three};
use crate::numeral::short_number;
use crate::state::Stop;
use crate::types::WitKind;
use eq_bits::Output;
use eq_names::{Name, NameErr};
use std::alloc::Global;

/// What is wrong where a word should be a number.
pub fn wrong(word: &[u8]) -> Stop
    ensures { spec.IsWrong word.now result }
{
    if is_name(word) {
        Stop::Fault(WitKind::Number)
    } else {
        Stop::Fault(WitKind::Word)
    }
}

/// The number up to a greatest one that a word is.
pub fn up_to(word: &[u8], most: u32) -> Option<u32>
    ensures { MatchOption result ((n : ℕ) → n ≤ most → word.now ≢ decimal n)
        (λ n. (word.now ≡ decimal n) × (n ≤ most)) }
{
    let number = short_number(word)?;
    if number <= most { Some(number) } else { None }
}

/// The number up to a greatest one that stands behind a key.
pub fn count(words: &Words, key: &[u8], most: u32) -> Result<u32, Stop>
    ensures { spec.ReadsLine (count_line key.now) (λ n. n ≤ most) words.now result }
{
    let Some(word) = keyed(words, key) else {
        return Err(Stop::Fault(WitKind::Word));
    };
    match up_to(word, most) {
        Some(number) => Ok(number),
        None => Err(wrong(word)),
    }
}

/// The name that a word is.
pub fn name(alloc: Global, word: &[u8]) -> Result<Name, Stop>
    ensures { MatchResult result (λ name. (name ≡ word.now) × IsName word.now)
        (StopsBy (λ kind. (kind ≡ WrongWord) × (¬ IsName word.now))) }
{
    match Name::read(alloc, word) {
        Ok(name) => Ok(name),
        Err(NameErr::Memory) => Err(Stop::Memory),
        Err(NameErr::Empty) => Err(Stop::Fault(WitKind::Word)),
        Err(NameErr::BadByte { .. }) => Err(Stop::Fault(WitKind::Word)),
    }
}

/// The name of a part.
pub fn part_name(alloc: Global, words: &Words) -> Result<Name, Stop>
    ensures { spec.ReadsLine part_line IsName words.now result }
{
    let Some(word) = keyed(words, b"part") else {
        return Err(Stop::Fault(WitKind::Word));
    };
    name(alloc, word)
}

/// The name of an input.
pub fn input_name(alloc: Global, words: &Words) -> Result<Name, Stop>
    ensures { spec.ReadsLine name_line IsName words.now result }
{
    let Some(word) = one(words) else {
        return Err(Stop::Fault(WitKind::Word));
    };
    name(alloc, word)
}

/// What is wrong where words have a form, and one isn't the number that it should be. From a place on each may be one.
pub fn wrong_from(words: &Words, from: usize) -> Stop
    ensures { spec.IsWrongFrom from words.now result }
{
    for place in from..words.len() {
        if !is_name(words.at(place)) {
            return Stop::Fault(WitKind::Word);
        }
    }
    Stop::Fault(WitKind::Number)
}

/// An output of a part of so many nodes.
pub fn output(alloc: Global, words: &Words, nodes: u32) -> Result<Output, Stop>
    requires { 0 < nodes }
    ensures { spec.ReadsLine output_line (spec.IsOutput nodes) words.now result }
{
    let Some((first, second, third)) = three(words) else {
        return Err(Stop::Fault(WitKind::Word));
    };
    let Some(gold) = up_to(second, nodes - 1) else {
        return Err(wrong_from(words, 0));
    };
    let Some(gate) = up_to(third, nodes - 1) else {
        return Err(wrong_from(words, 0));
    };
    match name(alloc, first) {
        Ok(name) => Ok(Output { name, gold, gate }),
        Err(stop) => Err(stop),
    }
}

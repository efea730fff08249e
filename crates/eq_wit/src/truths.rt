//! Lines of truth values.

ghost use Rattle.std.specs.Prelude.{◌≡◌, ◌≢◌, ◌<◌, Bool, List, [], ◌∷◌, MatchOption, MatchResult, length, map};
ghost use Rattle.eq_wit.specs.declared.types.WitKind.TheVariants.{Word as WrongWord};
ghost use Rattle.eq_wit.specs.Texts.{digit_of};
ghost use Rattle.eq_wit.specs.inner.Items as spec;
ghost use Rattle.eq_wit.specs.inner.Judging.{StopsBy};

use crate::dividing::{Words, keyed};
use crate::state::Stop;
use crate::types::WitKind;
use eq_base::Bits;
use std::alloc::Global;

/// The truth value of a digit.
pub fn bit(byte: u8) -> Option<bool>
    ensures { MatchOption result ((b : Bool) → byte ≢ digit_of b) (λ b. byte ≡ digit_of b) }
{
    match byte {
        b'0' => Some(false),
        b'1' => Some(true),
        _ => None,
    }
}

/// The truth value of a word that is one digit.
pub fn digit(word: &[u8]) -> Option<bool>
    ensures { MatchOption result ((b : Bool) → word.now ≢ digit_of b ∷ [])
        (λ b. word.now ≡ digit_of b ∷ []) }
{
    match word {
        [byte] => bit(*byte),
        _ => None,
    }
}

/// The truth values of digits.
fn values(alloc: Global, word: &[u8]) -> Result<Bits, Stop>
    ensures { MatchResult result (λ bits. word.now ≡ map digit_of bits)
        (StopsBy (λ kind. (kind ≡ WrongWord) ×
        ((bits : List Bool) → word.now ≢ map digit_of bits))) }
{
    let mut bits = Bits::new(alloc);
    for byte in word {
        match bit(*byte) {
            Some(value) => bits.push(value)?,
            None => return Err(Stop::Fault(WitKind::Word)),
        }
    }
    Ok(bits)
}

/// So many truth values behind a key.
pub fn bits(alloc: Global, words: &Words, key: &[u8], count: usize) -> Result<Bits, Stop>
    ensures { spec.ReadsLine (spec.bits_line key.now) (spec.IsBits count) words.now result }
{
    let Some(word) = keyed(words, key) else {
        return Err(Stop::Fault(WitKind::Word));
    };
    if count == 0 && word == b"-".as_slice() {
        return Ok(Bits::new(alloc));
    }
    if count == 0 || word.len() != count {
        return Err(Stop::Fault(WitKind::Word));
    }
    values(alloc, word)
}

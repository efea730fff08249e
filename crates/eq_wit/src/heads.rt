//! The first line of a try.

ghost use Rattle.std.specs.Prelude.{◌≡◌, ◌≢◌, ◌<◌, ◌≤◌, ◌^◌, ◌↔◌, ℕ, IsTrue, MatchOption};
ghost use Rattle.std.specs.Fmt.{decimal};
ghost use Rattle.eq_unroll.specs.Query.{IsUnrollable};
ghost use Rattle.eq_wit.specs.inner.Items as spec;
ghost use Rattle.eq_wit.specs.inner.Reading.{IsHead, MayAsk};

use crate::dividing::{Words, four_behind};
use crate::items::{name, up_to, wrong_from};
use crate::state::Stop;
use crate::types::{Head, WitKind};
use eq_bits::Part;
use eq_unroll::is_unrollable;
use std::alloc::Global;

/// The greatest number of queries that a try on the part may have.
fn most_queries(part: &Part) -> u32
    ensures { (n : ℕ) → (n ≤ result) ↔ ((n < 2 ^ 32) × MayAsk part.now n) }
{
    if is_unrollable(part, 1) {
        0xFFFF_FFFF
    } else {
        0
    }
}

/// The number from 1 up to a greatest one that a word is.
pub fn from_one(word: &[u8], most: u32) -> Option<u32>
    ensures { MatchOption result ((n : ℕ) → 1 ≤ n → n ≤ most → word.now ≢ decimal n)
        (λ n. (word.now ≡ decimal n) × (1 ≤ n) × (n ≤ most)) }
{
    let number = up_to(word, most)?;
    if number == 0 { None } else { Some(number) }
}

/// The name and the limits of a try's strategy, and how many queries follow.
pub fn head(alloc: Global, words: &Words, part: &Part) -> Result<(Head, u32), Stop>
    ensures { spec.ReadsLine spec.headed_line (λ h. IsHead part.now h.0 h.1) words.now result }
{
    let Some((first, second, third, fourth)) = four_behind(words, b"attempt") else {
        return Err(Stop::Fault(WitKind::Word));
    };
    let Some(depth) = from_one(second, 64) else {
        return Err(wrong_from(words, 1));
    };
    let Some(conflicts) = from_one(third, 200_000) else {
        return Err(wrong_from(words, 1));
    };
    let Some(queries) = up_to(fourth, most_queries(part)) else {
        return Err(wrong_from(words, 1));
    };
    match name(alloc, first) {
        Ok(name) => Ok((
            Head {
                name,
                depth,
                conflicts: u64::from(conflicts),
            },
            queries,
        )),
        Err(stop) => Err(stop),
    }
}

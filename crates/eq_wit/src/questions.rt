//! The line of a query.

ghost use Rattle.std.specs.Prelude.{◌≡◌, ◌≢◌, ℕ, [], ◌∷◌, Bool, MatchOption};
ghost use Rattle.std.specs.Fmt.{decimal};
ghost use Rattle.eq_unroll.specs.declared.query.Query.{Query as XQuery};
ghost use Rattle.eq_unroll.specs.Query.{IsUnrollable};
ghost use Rattle.eq_wit.specs.Line.{field_text};
ghost use Rattle.eq_wit.specs.Texts.{query_word};
ghost use Rattle.eq_wit.specs.inner.Items as spec;
ghost use Rattle.eq_wit.specs.inner.Reading.{IsQuestion};

use crate::dividing::{Words, four, three};
use crate::items::{up_to, wrong_from};
use crate::numeral::short_number;
use crate::state::{Due, Question, Stop};
use crate::types::WitKind;
use eq_bits::Part;
use eq_unroll::{Query, is_unrollable};

/// The query of a word.
fn query(word: &[u8]) -> Option<Query>
    ensures { MatchOption result ((q : XQuery) → word.now ≢ field_text (query_word q))
        (λ q. word.now ≡ field_text (query_word q)) }
{
    if word == b"base".as_slice() {
        Some(Query::Base)
    } else if word == b"step".as_slice() {
        Some(Query::Step)
    } else {
        None
    }
}

/// Whether a log with a word for its answer ends with all conflicts spent.
fn spent(word: &[u8]) -> Option<bool>
    ensures { MatchOption result ((b : Bool) → word.now ≢ spec.log_word b)
        (λ b. word.now ≡ spec.log_word b) }
{
    if word == b"unsat".as_slice() {
        Some(false)
    } else if word == b"spent".as_slice() {
        Some(true)
    } else {
        None
    }
}

/// The number of cycles that a word is, at which the part has formulas.
fn cycles(word: &[u8], part: &Part) -> Option<u32>
    ensures { MatchOption result ((k : ℕ) → IsUnrollable part.now k → word.now ≢ decimal k)
        (λ k. (word.now ≡ decimal k) × IsUnrollable part.now k) }
{
    let k = up_to(word, 64)?;
    if is_unrollable(part, k) {
        Some(k)
    } else {
        None
    }
}

/// A query with a run behind it.
fn shown(
    words: &Words,
    part: &Part,
    first: &[u8],
    second: &[u8],
    third: &[u8],
) -> Result<Question, Stop>
    requires may { IsUnrollable part.now 1 }
    requires words { words.now ≡ first.now ∷ second.now ∷ third.now ∷ [] }
    ensures { spec.ReadsLine spec.question_line (IsQuestion part.now) words.now result }
{
    let Some(query) = query(first) else {
        return Err(Stop::Fault(WitKind::Word));
    };
    if third != b"sat".as_slice() {
        return Err(Stop::Fault(WitKind::Word));
    }
    match cycles(second, part) {
        Some(k) => Ok(Question {
            query,
            k,
            due: Due::Run,
        }),
        None => Err(wrong_from(words, 1)),
    }
}

/// A query with a log behind it.
fn logged(
    words: &Words,
    part: &Part,
    first: &[u8],
    second: &[u8],
    third: &[u8],
    fourth: &[u8],
) -> Result<Question, Stop>
    requires may { IsUnrollable part.now 1 }
    requires words { words.now ≡ first.now ∷ second.now ∷ third.now ∷ fourth.now ∷ [] }
    ensures { spec.ReadsLine spec.question_line (IsQuestion part.now) words.now result }
{
    let Some(query) = query(first) else {
        return Err(Stop::Fault(WitKind::Word));
    };
    let Some(spent) = spent(third) else {
        return Err(Stop::Fault(WitKind::Word));
    };
    let Some(k) = cycles(second, part) else {
        return Err(wrong_from(words, 1));
    };
    match short_number(fourth) {
        Some(steps) => Ok(Question {
            query,
            k,
            due: Due::Log(spent, steps),
        }),
        None => Err(wrong_from(words, 1)),
    }
}

/// A query, and what is to follow.
pub fn question(words: &Words, part: &Part) -> Result<Question, Stop>
    requires { IsUnrollable part.now 1 }
    ensures { spec.ReadsLine spec.question_line (IsQuestion part.now) words.now result }
{
    if let Some((first, second, third)) = three(words) {
        return shown(words, part, first, second, third);
    }
    let Some((first, second, third, fourth)) = four(words) else {
        return Err(Stop::Fault(WitKind::Word));
    };
    logged(words, part, first, second, third, fourth)
}

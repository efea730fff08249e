//! Where the reading stands behind a line of a try.

ghost use Rattle.std.specs.Prelude.{◌≡◌, ◌<◌, ◌^◌, ◌-◌, [], ◌∷◌, ◌↔◌, IfOk, IsTrue, codes, length, slice_get};
ghost use Rattle.eq_wit.specs.declared.state.State.TheVariants as XState;
ghost use Rattle.eq_induct.specs.Outcome.{verdict_of};
ghost use Rattle.eq_wit.specs.Texts.{verdict_line};
ghost use Rattle.eq_wit.specs.inner.Items as spec;
ghost use Rattle.eq_wit.specs.inner.Judging.{words_of};
ghost use Rattle.eq_wit.specs.inner.Reading.{with_try as spec_with_try};

use crate::dividing::{Words, is_one, keyed};
use crate::ends::end;
use crate::heads::head;
use crate::state::{Open, State, Stop, Tally};
use crate::types::WitKind;
use eq_base::Memory;
use eq_induct::{AskedList, Attempt, End, PartVerdict, Try};
use std::alloc::Global;

/// Behind the first line of a try, where one more is due.
fn one_try(alloc: Global, tally: Tally, words: &Words) -> Result<State, Stop>
    requires { 0 < tally.left }
    ensures { spec.Judges (XState.Tries tally) words.now result }
{
    let Tally {
        part,
        heads,
        tries,
        conflicts,
        left,
    } = tally;
    match head(alloc, words, &part) {
        Ok((head, queries)) => Ok(State::Queries(
            Tally {
                part,
                heads,
                tries,
                conflicts,
                left: left - 1,
            },
            Open {
                head,
                asked: AskedList::new(alloc),
                left: queries,
            },
        )),
        Err(stop) => Err(stop),
    }
}

/// With a try that is over.
fn with_try(tally: Tally, attempt: Open, end: End) -> Result<Tally, Memory>
    requires { length tally.tries < 2 ^ 32 }
    ensures { IfOk result (λ after. after ≡ spec_with_try tally attempt end) }
{
    let Tally {
        part,
        mut heads,
        mut tries,
        conflicts,
        left,
    } = tally;
    let Open { head, asked, .. } = attempt;
    let strategy = tries.len() as u32;
    heads.push(head)?;
    tries.push(Try {
        strategy,
        attempt: Attempt { asked, end },
    })?;
    Ok(Tally {
        part,
        heads,
        tries,
        conflicts,
        left,
    })
}

/// Behind the last line of a try.
pub fn query_over(tally: Tally, attempt: Open, words: &Words) -> Result<State, Stop>
    requires over { attempt.left ≡ 0 }
    requires few { length tally.tries < 2 ^ 32 }
    ensures { spec.Judges (XState.Queries tally attempt) words.now result }
{
    match end(words) {
        Ok(end) => Ok(State::Tries(with_try(tally, attempt, end)?)),
        Err(stop) => Err(stop),
    }
}

/// What the last of the tries says.
pub fn verdict(tries: &[Try]) -> PartVerdict
    ensures { result ≡ verdict_of (slice_get tries.now (length tries.now - 1)) }
{
    let Some(last) = tries.last() else {
        return PartVerdict::Unknown;
    };
    let strategy = last.strategy;
    match last.attempt.end {
        End::Proved(k) => PartVerdict::Proved { k, strategy },
        End::Fail(k) => PartVerdict::Fail { k, strategy },
        End::Deep => PartVerdict::Unknown,
        End::Spent => PartVerdict::Unknown,
    }
}

/// The word of a verdict.
fn word(verdict: PartVerdict) -> &'static [u8]
    ensures { words_of (verdict_line verdict) ≡ codes "verdict" ∷ result.now ∷ [] }
{
    match verdict {
        PartVerdict::Proved { .. } => b"proved",
        PartVerdict::Fail { .. } => b"fail",
        PartVerdict::Unknown => b"unknown",
    }
}

/// Whether the words are the line of a verdict.
fn is_verdict(words: &Words, verdict: PartVerdict) -> bool
    ensures { IsTrue result ↔ (words.now ≡ words_of (verdict_line verdict)) }
{
    match keyed(words, b"verdict") {
        Some(second) => second == word(verdict),
        None => false,
    }
}

/// Behind the verdict.
fn tries_over(tally: Tally, words: &Words) -> Result<State, Stop>
    requires { tally.left ≡ 0 }
    ensures { spec.Judges (XState.Tries tally) words.now result }
{
    if is_verdict(words, verdict(tally.tries.as_slice())) {
        Ok(State::Closing(tally))
    } else {
        Err(Stop::Fault(WitKind::Word))
    }
}

/// Behind the first line of a try, or behind the verdict where none is due.
pub fn next_try(alloc: Global, tally: Tally, words: &Words) -> Result<State, Stop>
    ensures { spec.Judges (XState.Tries tally) words.now result }
{
    if tally.left == 0 {
        tries_over(tally, words)
    } else {
        one_try(alloc, tally, words)
    }
}

/// Behind the last line.
pub fn closing(tally: Tally, words: &Words) -> Result<State, Stop>
    ensures { spec.Judges (XState.Closing tally) words.now result }
{
    if is_one(words, b"end") {
        Ok(State::Ended(tally))
    } else {
        Err(Stop::Fault(WitKind::Word))
    }
}

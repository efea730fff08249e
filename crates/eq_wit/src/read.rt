//! Reads the text of an evidence, in one pass.

ghost use Rattle.std.specs.Prelude.{◌≡◌, ◌≢◌, ℕ, ◌+◌, ◌^◌, ◌<◌, ◌⊎◌, List, [], ◌∷◌, ◌++◌, IfOk, IsErrOf, MatchOption, MatchResult, length};
ghost use Rattle.eq_wit.specs.declared.state.State.TheVariants as XState;
ghost use Rattle.eq_wit.specs.declared.state.Stop.TheVariants as XStop;
ghost use Rattle.eq_wit.specs.declared.state.Tally.{Tally as XTally};
ghost use Rattle.eq_wit.specs.declared.types.Evidence.{Evidence as XEvidence};
ghost use Rattle.eq_wit.specs.declared.types.WitErr.TheVariants as XErr;
ghost use Rattle.eq_wit.specs.declared.types.WitKind.{WitKind as XKind};
ghost use Rattle.eq_wit.specs.Faults.{IsFirstFault, Prints};
ghost use Rattle.eq_wit.specs.Line.{line_text};
ghost use Rattle.eq_wit.specs.inner.Counting.{HasCounts, IsAnswered, IsAt};
ghost use Rattle.eq_wit.specs.inner.Judging.{HasNoFeed, IsReached, words_in};
ghost use Rattle.eq_wit.specs.inner.Reading.{title};

use crate::dividing::{divide, next_line};
use crate::following::{Room, advance};
use crate::state::{State, Stop, Tally};
use crate::trying::verdict;
use crate::types::{Evidence, WitErr, WitKind};
use eq_induct::Decided;
use std::alloc::Global;

/// The evidence of a text with fewer than 2^32 bytes, its tries' strategies numbered from 0.
///
/// Takes one pass, and for each kind of query and each number of cycles that is asked another over the part's nodes.
pub fn read_evidence(alloc: Global, text: &[u8]) -> Result<Evidence, WitErr>
    requires { length text.now < 2 ^ 32 }
    ensures ok { IfOk result (λ evidence. Prints evidence text.now) }
    ensures at { (line : ℕ) (kind : XKind) → IsErrOf result (XErr.At line kind) →
        IsFirstFault text.now line kind }
    // What is an evidence's text is read, unless memory runs out.
    ensures only_ok { (evidence : XEvidence) → Prints evidence text.now →
        MatchResult result (λ found. found ≡ evidence) (λ e. e ≡ XErr.Memory) }
    // And what is none has its first fault named.
    ensures only_at { (line : ℕ) (kind : XKind) → IsFirstFault text.now line kind →
        IsErrOf result (XErr.At line kind) ⊎ IsErrOf result XErr.Memory }
{
    evidence_of(alloc, text)
}

/// The evidence of a text, or what is answered of another.
fn evidence_of(alloc: Global, text: &[u8]) -> Result<Evidence, WitErr>
    requires { length text.now < 2 ^ 32 }
    ensures { MatchResult result (λ evidence. Prints evidence text.now) (IsAnswered text.now) }
{
    match behind_title(text) {
        Some(behind) => lines(alloc, text, behind),
        None => Err(WitErr::At {
            line: 1,
            kind: WitKind::Head,
        }),
    }
}

/// What follows the first line.
fn behind_title(text: &[u8]) -> Option<&[u8]>
    ensures { MatchOption result ((more : List ℕ) → text.now ≢ line_text title ++ more)
        (λ rest. text.now ≡ line_text title ++ rest.now) }
{
    text.strip_prefix(b"eqe 1\n")
}

/// What was read where nothing is due.
fn ended(state: State) -> Option<Tally>
    ensures { MatchOption result ((t : XTally) → state ≢ XState.Ended t)
        (λ t. state ≡ XState.Ended t) }
{
    match state {
        State::Ended(tally) => Some(tally),
        _ => None,
    }
}

/// Lets go of what was read where memory runs out.
fn no_memory(_state: State) -> WitErr
    ensures { result ≡ XErr.Memory }
{
    WitErr::Memory
}

/// What is wrong with bytes behind the last line feed.
fn without_feed(text: &[u8], state: State, line: u32, rest: &[u8]) -> WitErr
    requires at { IsAt text.now state line rest.now }
    requires feed { HasNoFeed rest.now }
    requires some { 0 < length rest.now }
    requires fits { line + 1 < 2 ^ 32 }
    ensures { IsAnswered text.now result }
{
    match ended(state) {
        Some(_tally) => WitErr::At {
            line: line + 1,
            kind: WitKind::End,
        },
        None => WitErr::At {
            line: line + 1,
            kind: WitKind::Word,
        },
    }
}

/// Where the reading stands behind a line of these bytes, which stand before the bytes behind it.
fn one_line(
    alloc: Global,
    text: &[u8],
    state: State,
    line: u32,
    bytes: &[u8],
    after: &[u8],
    room: &mut Room,
) -> Result<State, WitErr>
    requires at { IsAt text.now state line (bytes.now ++ 10 ∷ after.now) }
    requires feed { HasNoFeed bytes.now }
    requires fits { line + 1 < 2 ^ 32 }
    requires counts { HasCounts state room.old.counts }
    ensures further { MatchResult result (λ next. IsAt text.now next (line + 1) after.now)
        (IsAnswered text.now) }
    ensures kept { IfOk result (λ next. HasCounts next room.new.counts) }
{
    match divide(bytes, &mut room.words) {
        Ok(()) => with_words(alloc, text, state, line, bytes, after, room),
        Err(_) => Err(no_memory(state)),
    }
}

/// What is answered where the line behind so many isn't taken.
fn answer(stop: Stop, line: u32) -> WitErr
    requires { line + 1 < 2 ^ 32 }
    ensures at { (kind : XKind) → stop ≡ XStop.Fault kind → result ≡ XErr.At (line + 1) kind }
    ensures memory { stop ≡ XStop.Memory → result ≡ XErr.Memory }
{
    match stop {
        Stop::Fault(kind) => WitErr::At {
            line: line + 1,
            kind,
        },
        Stop::Memory => WitErr::Memory,
    }
}

/// The same where the words of the line stand in the room.
fn with_words(
    alloc: Global,
    text: &[u8],
    state: State,
    line: u32,
    bytes: &[u8],
    after: &[u8],
    room: &mut Room,
) -> Result<State, WitErr>
    requires at { IsAt text.now state line (bytes.now ++ 10 ∷ after.now) }
    requires feed { HasNoFeed bytes.now }
    requires fits { line + 1 < 2 ^ 32 }
    requires counts { HasCounts state room.old.counts }
    requires words { room.old.words ≡ words_in bytes.now }
    ensures further { MatchResult result (λ next. IsAt text.now next (line + 1) after.now)
        (IsAnswered text.now) }
    ensures kept { IfOk result (λ next. HasCounts next room.new.counts) }
{
    match advance(alloc, state, room) {
        Ok(next) => Ok(next),
        Err(stop) => Err(answer(stop, line)),
    }
}

/// The evidence that was read.
fn evidence(text: &[u8], tally: Tally, line: u32) -> Evidence
    requires { IsReached text.now (XState.Ended tally) line [] }
    ensures { Prints result text.now }
{
    let Tally {
        part,
        heads,
        tries,
        conflicts,
        ..
    } = tally;
    let verdict = verdict(tries.as_slice());
    Evidence {
        part,
        heads,
        decided: Decided {
            tries,
            verdict,
            conflicts,
        },
    }
}

/// What the text comes to where no byte is left.
fn finished(text: &[u8], state: State, line: u32) -> Result<Evidence, WitErr>
    requires at { IsAt text.now state line [] }
    requires fits { line + 1 < 2 ^ 32 }
    ensures { MatchResult result (λ evidence. Prints evidence text.now) (IsAnswered text.now) }
{
    match ended(state) {
        Some(tally) => Ok(evidence(text, tally, line)),
        None => Err(WitErr::At {
            line: line + 1,
            kind: WitKind::End,
        }),
    }
}

/// Reads the lines behind the first.
fn lines(alloc: Global, text: &[u8], behind: &[u8]) -> Result<Evidence, WitErr>
    requires title { text.now ≡ line_text title ++ behind.now }
    requires short { length text.now < 2 ^ 32 }
    ensures { MatchResult result (λ evidence. Prints evidence text.now) (IsAnswered text.now) }
{
    let mut room = Room::new(alloc)?;
    let mut state = State::Titled;
    let mut line: u32 = 1;
    let mut rest = behind;
    while rest.len() > 0 {
        let Some((bytes, after)) = next_line(rest) else {
            return Err(without_feed(text, state, line, rest));
        };
        match one_line(alloc, text, state, line, bytes, after, &mut room) {
            Ok(next) => state = next,
            Err(fault) => return Err(fault),
        }
        line += 1;
        rest = after;
    }
    finished(text, state, line)
}

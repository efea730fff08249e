//! Strategies in their order, up to one that decides.

ghost use Rattle.std.specs.Prelude.{◌≡◌, ◌↔◌, ◌+◌, ◌*◌, ◌<◌, ◌≤◌, ◌^◌, All, Any, IfOk, IsTrue, OnOk, length};
ghost use Rattle.eq_config.specs.declared.limits.TheConstants.{MOST_CONFLICTS, MOST_STRATEGIES};
ghost use Rattle.eq_names.specs.Patterns.{Matches};
ghost use Rattle.eq_induct.specs.Attempts.{IsUsable, learned};
ghost use Rattle.eq_induct.specs.Outcome.{Applies, IsDecided, IsOutcome, VerdictSays, verdict_of_end};
ghost use Rattle.eq_induct.specs.inner.Asking.{IsCounted};
ghost use Rattle.eq_induct.specs.inner.Trying.{HasTried, TriesTo, with_try};

use crate::asking::learned_for;
use crate::course::attempt;
use crate::laws::a_verdict_is_induction;
use crate::types::{Asked, Attempt, Decided, End, PartVerdict, Tries, Try};
use eq_base::Memory;
use eq_bits::Part;
use eq_config::Strategy;
use eq_names::Pattern;
use std::alloc::Global;

/// Whether one of the patterns matches a name.
fn any_matches(patterns: &[Pattern], name: &[u8]) -> bool
    ensures { IsTrue result ↔ Any (λ p. Matches p name.now) patterns.now }
{
    patterns.iter().any(|pattern| pattern.matches(name))
}

/// Whether a strategy is for parts of this name.
pub fn applies(s: &Strategy, name: &[u8]) -> bool
    ensures { IsTrue result ↔ Applies name.now s.now }
{
    s.apply.is_empty() || any_matches(s.apply.as_slice(), name)
}

/// How many clauses were learned for all answers.
fn learned(asked: &[Asked]) -> u64
    requires counted { All (λ a. IsCounted a.answer) asked.now }
    requires few { learned asked.now ≤ MOST_CONFLICTS }
    ensures { result ≡ learned asked.now }
{
    let mut count = 0;
    for one in asked {
        count += learned_for(&one.answer);
    }
    count
}

/// Whether an end decides.
fn is_decided(end: End) -> bool
    ensures { IsTrue result ↔ IsDecided end }
{
    match end {
        End::Proved(_) => true,
        End::Fail(_) => true,
        End::Deep => false,
        End::Spent => false,
    }
}

/// What the strategy of this number says, that ended so.
fn verdict_of_end(strategy: u32, end: End) -> PartVerdict
    ensures { result ≡ verdict_of_end strategy end }
{
    match end {
        End::Proved(k) => PartVerdict::Proved { k, strategy },
        End::Fail(k) => PartVerdict::Fail { k, strategy },
        End::Deep => PartVerdict::Unknown,
        End::Spent => PartVerdict::Unknown,
    }
}

/// Adds a try, and answers whether it decides.
fn add(decided: &mut Decided, strategy: u32, attempt: Attempt) -> Result<bool, Memory>
    requires counted { All (λ a. IsCounted a.answer) attempt.asked }
    requires few { learned attempt.asked ≤ MOST_CONFLICTS }
    requires fits { decided.old.conflicts < 2 ^ 32 }
    ensures added { OnOk result (decided.new ≡
        with_try decided.old (record { strategy = strategy; attempt = attempt })) }
    ensures ends { IfOk result (λ ends. IsTrue ends ↔ IsDecided attempt.end) }
{
    let end = attempt.end;
    decided.conflicts += learned(attempt.asked.as_slice());
    decided.verdict = verdict_of_end(strategy, end);
    decided.tries.push(Try { strategy, attempt })?;
    Ok(is_decided(end))
}

/// Tries the strategy of number n where it applies, and answers whether that decides.
fn try_at(
    alloc: Global,
    part: &Part,
    s: &[Strategy],
    n: usize,
    decided: &mut Decided,
) -> Result<bool, Memory>
    requires few { length s.now ≤ MOST_STRATEGIES }
    requires usable { All (IsUsable part.now) s.now }
    requires there { n < length s.now }
    requires tried { HasTried part.now s.now n decided.old }
    ensures { IfOk result (TriesTo part.now s.now (n + 1) decided.new) }
{
    let strategy = &s[n];
    if !applies(strategy, part.name.bytes()) {
        return Ok(false);
    }
    let attempt = attempt(alloc, part, strategy)?;
    add(decided, n as u32, attempt)
}

/// Tries the strategies that apply to a part in order, up to one that proves it or finds a difference.
pub fn decide(alloc: Global, part: &Part, s: &[Strategy]) -> Result<Decided, Memory>
    requires few { length s.now ≤ MOST_STRATEGIES }
    requires usable { All (IsUsable part.now) s.now }
    ensures ok { IfOk result (IsOutcome part.now s.now) }
    ensures says { IfOk result (λ d. VerdictSays part.now s.now d.tries d.verdict) }
    ensures few { IfOk result (λ d. d.conflicts ≤ MOST_STRATEGIES * MOST_CONFLICTS) }
{
    a_verdict_is_induction();
    let mut decided = Decided {
        tries: Tries::new(alloc),
        verdict: PartVerdict::Unknown,
        conflicts: 0,
    };
    for n in 0..s.len() {
        if try_at(alloc, part, s, n, &mut decided)? {
            return Ok(decided);
        }
    }
    Ok(decided)
}

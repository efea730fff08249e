//! The words of a step of a log.

ghost use Rattle.std.specs.Prelude.{◌≡◌, ◌≢◌, ℕ, ◌+◌, ◌-◌, ◌^◌, ◌<◌, ◌≤◌, ◌↔◌, All, List, [], ◌∷◌, ◌++◌, IfNone, IfOk, IfSome, IsTrue, MatchBool, MatchOption, MatchResult, Some, codes, drop, length, map, slice_get};
ghost use Rattle.std.specs.Fmt.{decimal};
ghost use Rattle.eq_proof.specs.Clause.{IsBefore, IsClause};
ghost use Rattle.eq_proof.specs.Literal.{Literal};
ghost use Rattle.eq_proof.specs.Text.{IsClauseUpTo, IsUpTo, literal_word};
ghost use Rattle.eq_wit.specs.inner.Items.{HasZeros, IsEarlierStep, IsFrom, IsItem, IsMisstep, IsNoItem, step_words};
ghost use Rattle.eq_wit.specs.inner.Judging.{StopsBy};
ghost use Rattle.eq_wit.specs.Texts.{step_fields};

use crate::dividing::Words;
use crate::heads::from_one;
use crate::items::wrong_from;
use crate::numeral::number;
use crate::state::Stop;
use crate::types::WitKind;
use eq_base::Memory;
use eq_proof::Lit;

/// Whether a word ends a list.
fn is_zero(word: &[u8]) -> bool
    ensures { IsTrue result ↔ (word.now ≡ codes "0") }
{
    word == b"0".as_slice()
}

/// What follows a minus sign.
fn minus(word: &[u8]) -> Option<&[u8]>
    ensures { MatchOption result ((rest : List ℕ) → word.now ≢ 45 ∷ rest)
        (λ rest. word.now ≡ 45 ∷ rest.now) }
{
    match word {
        [b'-', rest @ ..] => Some(rest),
        _ => None,
    }
}

/// The literal that a word is.
fn literal(word: &[u8]) -> Option<Lit>
    ensures { MatchOption result ((l : Literal) → IsUpTo (2 ^ 31 - 1) l → word.now ≢ literal_word l)
        (λ l. (word.now ≡ literal_word l) × IsUpTo (2 ^ 31 - 1) l) }
{
    match minus(word) {
        Some(digits) => {
            let var = from_one(digits, 0x7FFF_FFFF)?;
            Some(Lit::new(var, false))
        }
        None => {
            let var = from_one(word, 0x7FFF_FFFF)?;
            Some(Lit::new(var, true))
        }
    }
}

fn is_before(a: Lit, b: Lit) -> bool
    ensures { IsTrue result ↔ IsBefore a b }
{
    a.var() < b.var() || (a.var() == b.var() && a.positive() && !b.positive())
}

/// Whether literals are in the order of a clause.
fn is_clause(lits: &[Lit]) -> bool
    ensures { IsTrue result ↔ IsClause lits.now }
{
    let mut place = 1;
    while place < lits.len() {
        if !is_before(lits[place - 1], lits[place]) {
            return false;
        }
        place += 1;
    }
    true
}

/// The literals from a place on, up to the next word `0`, where they make a clause, and the place of that word.
fn clause(words: &Words, from: usize, lits: &mut Vec<Lit>) -> Result<Option<usize>, Memory>
    requires { from ≤ length words.now }
    ensures some { IfOk result (λ found. IfSome found (λ place. drop from words.now ≡
        map literal_word lits.new.items ++ codes "0" ∷ drop (place + 1) words.now)) }
    ensures within { IfOk result (λ found. IfSome found (λ place. place < length words.now)) }
    ensures fits { IfOk result (λ found. IfSome found (λ _.
        IsClauseUpTo (2 ^ 31 - 1) lits.new.items)) }
    ensures none { IfOk result (λ found. IfNone found ((clause : List Literal)
        (rest : List (List ℕ)) → IsClauseUpTo (2 ^ 31 - 1) clause →
        drop from words.now ≢ map literal_word clause ++ codes "0" ∷ rest)) }
{
    lits.clear();
    let mut place = from;
    while place < words.len() {
        let word = words.at(place);
        if is_zero(word) {
            return Ok(if is_clause(lits.as_slice()) {
                Some(place)
            } else {
                None
            });
        }
        let Some(l) = literal(word) else {
            return Ok(None);
        };
        lits.push(l)?;
        place += 1;
    }
    Ok(None)
}

/// The number from 1 to below a limit that a word is.
fn antecedent(word: &[u8], limit: u64) -> Option<u64>
    ensures { MatchOption result ((n : ℕ) → 1 ≤ n → n < limit → word.now ≢ decimal n)
        (λ n. (word.now ≡ decimal n) × (1 ≤ n) × (n < limit)) }
{
    let n = number(word)?;
    if n == 0 {
        return None;
    }
    if n < limit { Some(n) } else { None }
}

/// Whether no word stands behind a place.
fn is_last(words: &Words, place: usize) -> bool
    requires { place < length words.now }
    ensures { IsTrue result ↔ (drop (place + 1) words.now ≡ []) }
{
    let len = words.len();
    if place + 1 < len { false } else { true }
}

/// The numbers from 1 to below a limit that stand from a place on, up to a last word `0`.
fn antecedents(words: &Words, from: usize, limit: u64, ants: &mut Vec<u64>) -> Result<bool, Memory>
    requires { from ≤ length words.now }
    ensures yes { IfOk result (λ found. IsTrue found →
        drop from words.now ≡ map decimal ants.new.items ++ codes "0" ∷ []) }
    ensures fits { IfOk result (λ found. IsTrue found → All (IsFrom limit) ants.new.items) }
    ensures no { IfOk result (λ found. (ants : List ℕ) → All (IsFrom limit) ants →
        drop from words.now ≡ map decimal ants ++ codes "0" ∷ [] → IsTrue found) }
{
    ants.clear();
    let mut place = from;
    while place < words.len() {
        let word = words.at(place);
        if is_zero(word) {
            return Ok(is_last(words, place));
        }
        let Some(n) = antecedent(word, limit) else {
            return Ok(false);
        };
        ants.push(n)?;
        place += 1;
    }
    Ok(false)
}

/// Whether the first word is a number.
fn is_numbered(words: &Words, n: u64) -> bool
    ensures { IsTrue result ↔ ((rest : List (List ℕ)) × (words.now ≡ decimal n ∷ rest)) }
{
    if words.is_empty() {
        return false;
    }
    match number(words.at(0)) {
        Some(found) => found == n,
        None => false,
    }
}

/// Whether the words are a step of a number, with antecedents below it. Its literals and antecedents are kept.
fn is_step(words: &Words, n: u64, lits: &mut Vec<Lit>, ants: &mut Vec<u64>) -> Result<bool, Memory>
    ensures yes { IfOk result (λ found. IsTrue found →
        step_words n lits.new.items ants.new.items ≡ words.now) }
    ensures clause { IfOk result (λ found. IsTrue found →
        IsClauseUpTo (2 ^ 31 - 1) lits.new.items) }
    ensures earlier { IfOk result (λ found. IsTrue found → All (IsFrom n) ants.new.items) }
    ensures no { IfOk result (λ found. (clause : List Literal) (ants : List ℕ) →
        IsClauseUpTo (2 ^ 31 - 1) clause → All (IsFrom n) ants →
        step_words n clause ants ≡ words.now → IsTrue found) }
{
    if !is_numbered(words, n) {
        return Ok(false);
    }
    match clause(words, 1, lits)? {
        Some(place) => antecedents(words, place + 1, n, ants),
        None => Ok(false),
    }
}

// ---- what is wrong with words that are no step

/// The place of the first word `0` from a place on.
fn zero_from(words: &Words, from: usize) -> Option<usize>
    ensures from { IfSome result (λ z. from ≤ z) }
    ensures zero { IfSome result (λ z. slice_get words.now z ≡ Some (codes "0")) }
    ensures first { IfSome result (λ z. (k : ℕ) → from ≤ k → k < z →
        slice_get words.now k ≢ Some (codes "0")) }
    ensures none { IfNone result ((k : ℕ) → from ≤ k → slice_get words.now k ≢ Some (codes "0")) }
{
    for place in from..words.len() {
        if is_zero(words.at(place)) {
            return Some(place);
        }
    }
    None
}

/// The place of the first word `0` behind the first word, where one more is the last word.
fn middle(words: &Words) -> Option<usize>
    ensures some { IfSome result (λ z. HasZeros words.now z) }
    ensures first { IfSome result (λ z. (k : ℕ) → HasZeros words.now k → z ≤ k) }
    ensures none { IfNone result ((k : ℕ) → HasZeros words.now k → ⊥) }
{
    let place = zero_from(words, 1)?;
    let last = words.len() - 1;
    if place >= last {
        return None;
    }
    if is_zero(words.at(last)) {
        Some(place)
    } else {
        None
    }
}

/// What is wrong with words that are no step.
fn misstep(words: &Words) -> Stop
    ensures { IsMisstep words.now result }
{
    let Some(place) = middle(words) else {
        return Stop::Fault(WitKind::Word);
    };
    if place <= 0xFFFF_FFFF {
        return wrong_from(words, 0);
    }
    Stop::Fault(WitKind::Word)
}

/// A step of a number, with antecedents below it. Its literals and antecedents are kept.
pub fn step(words: &Words, n: u64, lits: &mut Vec<Lit>, ants: &mut Vec<u64>) -> Result<(), Stop>
    requires { 1 < n }
    ensures { MatchResult result
        (λ _. IsItem (step_fields n) (IsEarlierStep n) words.now
        (record { clause = lits.new.items; ants = ants.new.items }))
        (StopsBy (IsNoItem (step_fields n) (IsEarlierStep n) words.now)) }
{
    if is_step(words, n, lits, ants)? {
        return Ok(());
    }
    Err(misstep(words))
}

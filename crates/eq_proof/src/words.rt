//! Lists of literals and of numbers as words with a blank behind each and `0` at the end.
ghost use Rattle.std.specs.Prelude.{◌≡◌, ◌≢◌, ◌-◌, ◌≤◌, ◌<◌, ◌^◌, ◌↔◌, ℕ, List, [], ◌∷◌, ◌++◌, IsTrue, All, IfOk, IfSome, IfNone, OnOk};
ghost use Rattle.std.specs.Fmt.{decimal};
ghost use Rattle.eq_proof.specs.Literal.{Literal};
ghost use Rattle.eq_proof.specs.Clause.{IsBefore, IsClause};
ghost use Rattle.eq_proof.specs.Text.{literal_word, clause_words, number_words, IsUpTo, IsClauseUpTo, IsNumber};

use crate::lit::Lit;
use crate::numeral::{number_before, push_number};
use crate::text::behind;
use eq_base::Memory;

/// The clause at the front of a text, without the byte behind its `0`: its literals are kept in `lits`, and what follows is answered.
pub fn read_clause<'a>(
    text: &'a [u8],
    most: u32,
    lits: &mut Vec<Lit>,
) -> Result<Option<&'a [u8]>, Memory>
    requires { most < 2 ^ 31 }
    ensures clause { IfOk result (λ found. IfSome found (λ rest. text.now ≡ clause_words lits.new.items ++ rest.now)) }
    ensures fits { IfOk result (λ found. IfSome found (λ _. IsClauseUpTo most lits.new.items)) }
    ensures none { IfOk result (λ found. IfNone found ((clause : List Literal) (rest : List ℕ) → IsClauseUpTo most clause → text.now ≢ clause_words clause ++ rest)) }
{
    lits.clear();
    let mut rest = text;
    loop {
        if let Some(after) = behind(rest, b'0') {
            return Ok(Some(after));
        }
        let Some((var, positive, after)) = literal(rest, most) else {
            return Ok(None);
        };
        let l = Lit::new(var, positive);
        if !goes_on(lits.as_slice(), l) {
            return Ok(None);
        }
        lits.push(l)?;
        rest = after;
    }
}

// The variable and the sign of the literal at the front of a text, with a blank behind it, and what follows that.
fn literal(text: &[u8], most: u32) -> Option<(u32, bool, &[u8])>
    requires { most < 2 ^ 31 }
    ensures fits { IfSome result (λ found. (1 ≤ found.0) × (found.0 ≤ most)) }
    ensures some { IfSome result (λ found. text.now ≡ literal_word (record { var = found.0; positive = found.1 }) ++ 32 ∷ found.2.now) }
    ensures none { IfNone result ((l : Literal) (rest : List ℕ) → IsUpTo most l → text.now ≢ literal_word l ++ 32 ∷ rest) }
{
    match behind(text, b'-') {
        Some(digits) => {
            let (var, rest) = variable(digits, most)?;
            Some((var, false, rest))
        }
        None => {
            let (var, rest) = variable(text, most)?;
            Some((var, true, rest))
        }
    }
}

// The variable up to `most` at the front of a text, with a blank behind it, and what follows that.
fn variable(text: &[u8], most: u32) -> Option<(u32, &[u8])>
    requires { most < 2 ^ 31 }
    ensures fits { IfSome result (λ found. (1 ≤ found.0) × (found.0 ≤ most)) }
    ensures some { IfSome result (λ found. text.now ≡ decimal found.0 ++ 32 ∷ found.1.now) }
    ensures none { IfNone result ((var : ℕ) (rest : List ℕ) → 1 ≤ var → var ≤ most → text.now ≢ decimal var ++ 32 ∷ rest) }
{
    let (var, rest) = number_before(text, b' ')?;
    if var == 0 {
        return None;
    }
    if u64::from(most) < var {
        return None;
    }
    Some((var as u32, rest))
}

// Whether a clause stays one with a literal more at its end.
fn goes_on(clause: &[Lit], l: Lit) -> bool
    requires { IsClause clause.now }
    ensures { IsTrue result ↔ IsClause (clause.now ++ l ∷ []) }
{
    match clause.last() {
        None => true,
        Some(last) => is_before(*last, l),
    }
}

fn is_before(a: Lit, b: Lit) -> bool
    ensures { IsTrue result ↔ IsBefore a b }
{
    a.var() < b.var() || (a.var() == b.var() && a.positive() && !b.positive())
}

/// Writes a clause's words at the end.
pub fn push_clause(out: &mut Vec<u8>, clause: &[Lit]) -> Result<(), Memory>
    ensures text { OnOk result (out.new.items ≡ out.old.items ++ clause_words clause.now) }
    ensures range { OnOk result (All (IsUpTo (2 ^ 31 - 1)) clause.now) }
{
    for l in clause {
        push_literal(out, *l)?;
        out.push(b' ')?;
    }
    out.push(b'0')?;
    Ok(())
}

fn push_literal(out: &mut Vec<u8>, l: Lit) -> Result<(), Memory>
    ensures text { OnOk result (out.new.items ≡ out.old.items ++ literal_word l) }
    ensures range { OnOk result (IsUpTo (2 ^ 31 - 1) l) }
{
    if !l.positive() {
        out.push(b'-')?;
    }
    let var = l.var();
    push_number(out, u64::from(var))
}

/// The numbers from 1 at the front of a text, without the byte behind their `0`: they are kept in `numbers`, and what follows is answered.
pub fn read_numbers<'a>(text: &'a [u8], numbers: &mut Vec<u64>) -> Result<Option<&'a [u8]>, Memory>
    ensures numbers { IfOk result (λ found. IfSome found (λ rest. text.now ≡ number_words numbers.new.items ++ rest.now)) }
    ensures fits { IfOk result (λ found. IfSome found (λ _. All IsNumber numbers.new.items)) }
    ensures none { IfOk result (λ found. IfNone found ((ns rest : List ℕ) → All IsNumber ns → text.now ≢ number_words ns ++ rest)) }
{
    numbers.clear();
    let mut rest = text;
    loop {
        if let Some(after) = behind(rest, b'0') {
            return Ok(Some(after));
        }
        let Some((number, after)) = number_before(rest, b' ') else {
            return Ok(None);
        };
        numbers.push(number)?;
        rest = after;
    }
}

/// Writes the words of numbers at the end.
pub fn push_numbers(out: &mut Vec<u8>, numbers: &[u64]) -> Result<(), Memory>
    ensures { OnOk result (out.new.items ≡ out.old.items ++ number_words numbers.now) }
{
    for number in numbers {
        push_number(out, *number)?;
        out.push(b' ')?;
    }
    out.push(b'0')?;
    Ok(())
}

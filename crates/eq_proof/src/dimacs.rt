//! Formulas as DIMACS texts.
ghost use Rattle.std.specs.Prelude.{◌≡◌, ◌≢◌, ◌+◌, ◌-◌, ◌<◌, ◌≤◌, ◌^◌, ℕ, List, ◌++◌, length, take, min, All, IfOk, IfSome, IfNone, IsErrOf, MatchResult, OnOk};
ghost use Rattle.std.specs.List.{flat_map};
ghost use Rattle.eq_proof.specs.Literal.{Literal};
ghost use Rattle.eq_proof.specs.Text.{IsUpTo, IsClauseUpTo, IsFirstBadLine};
ghost use Rattle.eq_proof.specs.Dimacs.{header_line, clause_line, dimacs_text, highest_of, IsFormula, IsDimacs, IsStop};

use crate::clauses::Clauses;
use crate::formula::Formula;
use crate::lit::Lit;
use crate::numeral::{number_before, push_number};
use crate::text::{TextErr, behind};
use crate::words::{push_clause, read_clause};
use eq_base::{Bytes, Memory};
use std::alloc::Global;

/// The formula of a DIMACS text.
///
/// The first line that isn't in the grammar is 1 where the header isn't one, also where the text is empty. Else it is
/// the first that isn't a clause's for this header, has no line feed, or stands behind the header's count of clauses;
/// where the text ends before this count, it is the line behind its last one.
pub fn read_dimacs(alloc: Global, text: &[u8]) -> Result<Formula, TextErr>
    requires { length text.now < 2 ^ 32 }
    ensures text { IfOk result (λ f. text.now ≡ dimacs_text f.vars f.clauses) }
    ensures formula { IfOk result (λ f. IsFormula f.vars f.clauses) }
    ensures bad_line { (line : ℕ) → IsErrOf result (TextErr.At line) → IsFirstBadLine IsDimacs text.now line }
    // What is printed is read back, unless memory runs out.
    ensures again { (vars : ℕ) (clauses : List (List Literal)) → IsFormula vars clauses → text.now ≡ dimacs_text vars clauses
        → MatchResult result (λ f. (f.vars ≡ vars) × (f.clauses ≡ clauses)) (λ e. e ≡ TextErr.Memory) }
{
    formula_of(alloc, text)
}

fn formula_of(alloc: Global, text: &[u8]) -> Result<Formula, TextErr>
    requires { length text.now < 2 ^ 32 }
    ensures text { IfOk result (λ f. text.now ≡ dimacs_text f.vars f.clauses) }
    ensures formula { IfOk result (λ f. IsFormula f.vars f.clauses) }
    ensures bad_line { (line : ℕ) → IsErrOf result (TextErr.At line) → IsFirstBadLine IsDimacs text.now line }
{
    let Some((vars, count, rest)) = header(text) else {
        return Err(TextErr::At { line: 1 });
    };
    let clauses = clauses_of(alloc, vars, count, rest)?;
    Ok(Formula { vars, clauses })
}

// The numbers of a header at the front of a text, and what follows its line.
fn header(text: &[u8]) -> Option<(u32, u64, &[u8])>
    ensures fits { IfSome result (λ found. (found.0 < 2 ^ 32) × (found.1 < 2 ^ 64)) }
    ensures some { IfSome result (λ found. text.now ≡ header_line found.0 found.1 ++ found.2.now) }
    ensures none { IfNone result ((vars count : ℕ) (rest : List ℕ) → vars < 2 ^ 32 → count < 2 ^ 64 → text.now ≢ header_line vars count ++ rest) }
{
    let numbers = text.strip_prefix(b"p cnf ")?;
    let (vars, rest) = number_before(numbers, b' ')?;
    if vars > u64::from(u32::MAX) {
        return None;
    }
    let (count, rest) = number_before(rest, b'\n')?;
    Some((vars as u32, count, rest))
}

// The clauses of the lines behind a header, which are all that is left of a text.
fn clauses_of(alloc: Global, vars: u32, count: u64, text: &[u8]) -> Result<Clauses, TextErr>
    requires { length text.now + 2 < 2 ^ 32 }
    ensures text { IfOk result (λ clauses. text.now ≡ flat_map clause_line clauses) }
    ensures count { IfOk result (λ clauses. length clauses ≡ count) }
    ensures fits { IfOk result (λ clauses. All (IsClauseUpTo (highest_of vars)) clauses) }
    ensures bad_line { (line : ℕ) → IsErrOf result (TextErr.At line) → IsStop (highest_of vars) count text.now line }
{
    let most = vars.min(0x7fff_ffff);
    let mut clauses = Clauses::new(alloc);
    let mut lits = Vec::new(alloc);
    let mut rest = text;
    for done in 0..count {
        let Some(after) = line_of(rest, most, &mut lits)? else {
            return Err(TextErr::At {
                line: done as u32 + 2,
            });
        };
        clauses.push_lits(lits.as_slice())?;
        rest = after;
    }
    if !rest.is_empty() {
        return Err(TextErr::At {
            line: count as u32 + 2,
        });
    }
    Ok(clauses)
}

// The clause of the line at the front of a text, whose literals are kept in `lits`, and what follows that line.
fn line_of<'a>(text: &'a [u8], most: u32, lits: &mut Vec<Lit>) -> Result<Option<&'a [u8]>, Memory>
    requires { most < 2 ^ 31 }
    ensures clause { IfOk result (λ found. IfSome found (λ rest. text.now ≡ clause_line lits.new.items ++ rest.now)) }
    ensures fits { IfOk result (λ found. IfSome found (λ _. IsClauseUpTo most lits.new.items)) }
    ensures none { IfOk result (λ found. IfNone found ((clause : List Literal) (rest : List ℕ) → IsClauseUpTo most clause → text.now ≢ clause_line clause ++ rest)) }
{
    let Some(rest) = read_clause(text, most, lits)? else {
        return Ok(None);
    };
    Ok(behind(rest, b'\n'))
}

/// The DIMACS text of a formula.
pub fn print_dimacs(alloc: Global, f: &Formula) -> Result<Bytes, Memory>
    ensures text { IfOk result (λ text. text ≡ dimacs_text f.now.vars f.now.clauses) }
    ensures formula { OnOk result (IsFormula f.now.vars f.now.clauses) }
{
    let mut out = Vec::new(alloc);
    push_header(&mut out, f.vars, f.clauses.len() as u64)?;
    for place in 0..f.clauses.len() {
        push_line(&mut out, f.clauses.at(place))?;
    }
    Ok(Bytes::from_vec(out))
}

fn push_header(out: &mut Vec<u8>, vars: u32, count: u64) -> Result<(), Memory>
    ensures { OnOk result (out.new.items ≡ out.old.items ++ header_line vars count) }
{
    out.extend_from_slice(b"p cnf ")?;
    push_number(out, u64::from(vars))?;
    out.push(b' ')?;
    push_number(out, count)?;
    out.push(b'\n')?;
    Ok(())
}

fn push_line(out: &mut Vec<u8>, clause: &[Lit]) -> Result<(), Memory>
    ensures text { OnOk result (out.new.items ≡ out.old.items ++ clause_line clause.now) }
    ensures range { OnOk result (All (IsUpTo (2 ^ 31 - 1)) clause.now) }
{
    push_clause(out, clause)?;
    out.push(b'\n')?;
    Ok(())
}

//! Logs as LRAT texts.
ghost use Rattle.std.specs.Prelude.{◌≡◌, ◌≢◌, ◌+◌, ◌-◌, ◌<◌, ◌≤◌, ◌^◌, ℕ, List, ◌++◌, length, All, IfOk, IfSome, IfNone, IsErrOf, MatchResult, OnOk};
ghost use Rattle.eq_proof.specs.Clause.{IsClause};
ghost use Rattle.eq_proof.specs.Inference.{Inference};
ghost use Rattle.eq_proof.specs.Text.{IsUpTo, IsFirstBadLine};
ghost use Rattle.eq_proof.specs.Lrat.{step_line, lrat_text, IsStep, IsNumbered, IsLrat};

use crate::lit::Lit;
use crate::log::Log;
use crate::numeral::{number_before, push_number};
use crate::text::{TextErr, behind};
use crate::words::{push_clause, push_numbers, read_clause, read_numbers};
use eq_base::{Bytes, Memory};
use std::alloc::Global;

/// The log of an LRAT text whose first step has the number `first`.
///
/// The first line that isn't in the grammar is the first that isn't a step's with the number that comes next, or has
/// no line feed. The empty text is that of the empty log.
pub fn read_lrat(alloc: Global, first: u64, text: &[u8]) -> Result<Log, TextErr>
    requires from_one { 1 ≤ first }
    requires low { first ≤ 2 ^ 63 }
    requires short { length text.now < 2 ^ 32 }
    ensures text { IfOk result (λ log. text.now ≡ lrat_text first log) }
    ensures numbered { IfOk result (λ log. IsNumbered first log) }
    ensures bad_line { (line : ℕ) → IsErrOf result (TextErr.At line) → IsFirstBadLine (IsLrat first) text.now line }
    // What is printed is read back, unless memory runs out.
    ensures again { (log : List Inference) → IsNumbered first log → text.now ≡ lrat_text first log
        → MatchResult result (λ found. found ≡ log) (λ e. e ≡ TextErr.Memory) }
{
    log_of(alloc, first, text)
}

fn log_of(alloc: Global, first: u64, text: &[u8]) -> Result<Log, TextErr>
    requires low { first ≤ 2 ^ 63 }
    requires short { length text.now < 2 ^ 32 }
    ensures text { IfOk result (λ log. text.now ≡ lrat_text first log) }
    ensures numbered { IfOk result (λ log. IsNumbered first log) }
    ensures bad_line { (line : ℕ) → IsErrOf result (TextErr.At line) → IsFirstBadLine (IsLrat first) text.now line }
{
    let mut log = Log::new(alloc);
    let mut lits = Vec::new(alloc);
    let mut ants = Vec::new(alloc);
    let mut rest = text;
    while !rest.is_empty() {
        let number = first + u64::from(log.len());
        let Some(after) = step_of(rest, number, &mut lits, &mut ants)? else {
            return Err(TextErr::At {
                line: log.len() + 1,
            });
        };
        log.push_parts(lits.as_slice(), ants.as_slice())?;
        rest = after;
    }
    Ok(log)
}

// The step of the line at the front of a text, whose parts are kept in `lits` and `ants`, and what follows that line.
fn step_of<'a>(
    text: &'a [u8],
    number: u64,
    lits: &mut Vec<Lit>,
    ants: &mut Vec<u64>,
) -> Result<Option<&'a [u8]>, Memory>
    ensures step { IfOk result (λ found. IfSome found (λ rest. text.now ≡ step_line number (record { clause = lits.new.items; ants = ants.new.items }) ++ rest.now)) }
    ensures fits { IfOk result (λ found. IfSome found (λ _. IsStep (record { clause = lits.new.items; ants = ants.new.items }))) }
    ensures none { IfOk result (λ found. IfNone found ((step : Inference) (rest : List ℕ) → IsStep step → text.now ≢ step_line number step ++ rest)) }
{
    let Some((found, rest)) = number_before(text, b' ') else {
        return Ok(None);
    };
    if found != number {
        return Ok(None);
    }
    let Some(rest) = read_clause(rest, 0x7fff_ffff, lits)? else {
        return Ok(None);
    };
    let Some(rest) = behind(rest, b' ') else {
        return Ok(None);
    };
    let Some(rest) = read_numbers(rest, ants)? else {
        return Ok(None);
    };
    Ok(behind(rest, b'\n'))
}

/// The LRAT text of a log whose first step gets the number `first`.
pub fn print_lrat(alloc: Global, first: u64, log: &Log) -> Result<Bytes, Memory>
    requires from_one { 1 ≤ first }
    requires low { first ≤ 2 ^ 63 }
    ensures text { IfOk result (λ text. text ≡ lrat_text first log.now) }
    ensures numbered { OnOk result (IsNumbered first log.now) }
{
    let mut out = Vec::new(alloc);
    for place in 0..log.len() {
        let step = log.at(place);
        push_step(&mut out, first + u64::from(place), step.clause, step.ants)?;
    }
    Ok(Bytes::from_vec(out))
}

fn push_step(out: &mut Vec<u8>, number: u64, clause: &[Lit], ants: &[u64]) -> Result<(), Memory>
    ensures text { OnOk result (out.new.items ≡ out.old.items ++ step_line number (record { clause = clause.now; ants = ants.now })) }
    ensures clause_range { OnOk result (All (IsUpTo (2 ^ 31 - 1)) clause.now) }
    ensures ants_range { All (λ n. n < 2 ^ 64) ants.now }
{
    push_number(out, number)?;
    out.push(b' ')?;
    push_clause(out, clause)?;
    out.push(b' ')?;
    push_numbers(out, ants)?;
    out.push(b'\n')?;
    Ok(())
}

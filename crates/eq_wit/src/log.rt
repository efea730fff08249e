//! Writes the steps of a log at the end of a text, as lines of LRAT.

ghost use Rattle.std.specs.Prelude.{◌≡◌, ◌<◌, ◌^◌, ◌∷◌, ◌++◌, OnOk, map};
ghost use Rattle.eq_proof.specs.Text.{literal_word};
ghost use Rattle.eq_wit.specs.Line.{spaced_fields, line_text, lines_text, number};
ghost use Rattle.eq_wit.specs.Texts as spec;

use crate::put::{put, put_decimal, put_number};
use eq_base::Memory;
use eq_proof::{Lit, Log};

/// Writes a literal behind a blank.
fn put_literal(out: &mut Vec<u8>, literal: Lit) -> Result<(), Memory>
    ensures { OnOk result (out.new.items ≡ out.old.items ++ 32 ∷ literal_word literal) }
{
    out.push(b' ')?;
    if !literal.positive() {
        out.push(b'-')?;
    }
    let var = literal.var();
    put_decimal(out, u64::from(var))
}

fn put_clause(out: &mut Vec<u8>, clause: &[Lit]) -> Result<(), Memory>
    ensures { OnOk result (out.new.items ≡ out.old.items
        ++ spaced_fields (map spec.literal_field clause.now)) }
{
    for literal in clause {
        put_literal(out, *literal)?;
    }
    Ok(())
}

fn put_antecedents(out: &mut Vec<u8>, antecedents: &[u64]) -> Result<(), Memory>
    ensures { OnOk result (out.new.items ≡ out.old.items
        ++ spaced_fields (map number antecedents.now)) }
{
    for antecedent in antecedents {
        put_number(out, *antecedent)?;
    }
    Ok(())
}

/// Writes the line of a step.
fn put_step(
    out: &mut Vec<u8>,
    number: u64,
    clause: &[Lit],
    antecedents: &[u64],
) -> Result<(), Memory>
    ensures { OnOk result (out.new.items ≡ out.old.items ++ line_text (spec.step_fields number
        (record { clause = clause.now; ants = antecedents.now }))) }
{
    put_decimal(out, number)?;
    put_clause(out, clause)?;
    put(out, b" 0")?;
    put_antecedents(out, antecedents)?;
    put(out, b" 0\n")
}

/// Writes the steps of a log, numbered from `first`.
pub fn put_log(out: &mut Vec<u8>, first: u64, log: &Log) -> Result<(), Memory>
    requires { first < 2 ^ 63 }
    ensures { OnOk result (out.new.items ≡ out.old.items
        ++ lines_text (spec.log_lines first log.now)) }
{
    for place in 0..log.len() {
        let step = log.at(place);
        put_step(out, first + u64::from(place), step.clause, step.ants)?;
    }
    Ok(())
}

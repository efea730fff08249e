//! Writes an evidence as a text.

ghost use Rattle.std.specs.Prelude.{◌≡◌, ℕ, ◌<◌, ◌^◌, ◌++◌, ◌∷◌, [], IfOk, OnOk, Some, codes, length, map, slice_get};
ghost use Rattle.std.specs.Fmt.{decimal};
ghost use Rattle.std.specs.List.{flat_map};
ghost use Rattle.eq_unroll.specs.Query.{IsUnrollable};
ghost use Rattle.eq_wit.specs.Evidence.{IsTryOf, MakeEvidence};
ghost use Rattle.eq_wit.specs.Line.{Word, spaced_fields, line_text, lines_text, number};
ghost use Rattle.eq_wit.specs.Texts as spec;
ghost use Rattle.eq_wit.specs.Tried.{AreOf, head_of, heads_of};

use crate::log::put_log;
use crate::put::{
    put, put_bits_line, put_line, put_node, put_number, put_output, put_word, put_words,
};
use eq_base::{Bits, Bytes, Memory};
use eq_bits::{Name, Node, Output, Part, Run};
use eq_config::Strategy;
use eq_induct::{Answer, Asked, Decided, End, PartVerdict, Try};
use eq_proof::Log;
use eq_unroll::{Query, clause_count};
use std::alloc::Global;

// ---- the part

fn put_names(out: &mut Vec<u8>, names: &[Name]) -> Result<(), Memory>
    ensures { OnOk result (out.new.items ≡ out.old.items
        ++ lines_text (map spec.name_line names.now)) }
{
    for name in names {
        put_word(out, name.bytes())?;
    }
    Ok(())
}

fn put_nodes(out: &mut Vec<u8>, nodes: &[Node]) -> Result<(), Memory>
    ensures { OnOk result (out.new.items ≡ out.old.items
        ++ lines_text (map spec.node_line nodes.now)) }
{
    for node in nodes {
        put_node(out, *node)?;
    }
    Ok(())
}

fn put_outputs(out: &mut Vec<u8>, outputs: &[Output]) -> Result<(), Memory>
    ensures { OnOk result (out.new.items ≡ out.old.items
        ++ lines_text (map spec.output_line outputs.now)) }
{
    for output in outputs {
        put_output(out, output)?;
    }
    Ok(())
}

/// Writes a key and how many lines of its kind follow.
fn put_count(out: &mut Vec<u8>, key: &[u8], count: usize) -> Result<(), Memory>
    requires { count < 2 ^ 32 }
    ensures { OnOk result (out.new.items ≡ out.old.items
        ++ line_text (Word key.now ∷ number count ∷ [])) }
{
    put_line(out, key, &[count as u32])
}

/// Writes the inputs, nodes and outputs of a part, each behind their number.
fn put_lists(out: &mut Vec<u8>, part: &Part) -> Result<(), Memory>
    ensures { OnOk result (out.new.items ≡ out.old.items ++ lines_text (spec.list_lines part.now)) }
{
    put_count(out, b"inputs", part.inputs.len())?;
    put_names(out, part.inputs.as_slice())?;
    put_count(out, b"nodes", part.nodes.len())?;
    put_nodes(out, part.nodes.as_slice())?;
    put_count(out, b"outputs", part.outputs.len())?;
    put_outputs(out, part.outputs.as_slice())
}

/// Writes the lines of a part.
fn put_part(out: &mut Vec<u8>, part: &Part) -> Result<(), Memory>
    ensures { OnOk result (out.new.items ≡ out.old.items ++ lines_text (spec.lines_of_part part.now)) }
{
    put_words(out, b"part", part.name.bytes())?;
    put_lists(out, part)
}

// ---- queries and their answers

fn put_frames(out: &mut Vec<u8>, frames: &[Bits]) -> Result<(), Memory>
    ensures { OnOk result (out.new.items ≡ out.old.items
        ++ lines_text (map spec.frame_line frames.now)) }
{
    for frame in frames {
        put_bits_line(out, b"in", frame.as_slice())?;
    }
    Ok(())
}

fn put_run(out: &mut Vec<u8>, run: &Run) -> Result<(), Memory>
    ensures { OnOk result (out.new.items ≡ out.old.items
        ++ lines_text (spec.regs_line run.now.regs ∷ map spec.frame_line run.now.inputs)) }
{
    put_bits_line(out, b"regs", run.regs.as_slice())?;
    put_frames(out, run.inputs.as_slice())
}

/// The word of a query.
fn word_of(query: Query) -> &'static [u8]
    ensures { Word result.now ≡ spec.query_word query }
{
    match query {
        Query::Base => b"base",
        Query::Step => b"step",
    }
}

/// Writes what follows a query that holds: `sat`, and the run.
fn put_shown(out: &mut Vec<u8>, run: &Run) -> Result<(), Memory>
    ensures { OnOk result (out.new.items ≡ out.old.items ++ (codes " sat\n"
        ++ lines_text (spec.regs_line run.now.regs ∷ map spec.frame_line run.now.inputs))) }
{
    put(out, b" sat\n")?;
    put_run(out, run)
}

/// Writes what follows a query with a log: a word, how many steps there are, and the steps.
fn put_logged(out: &mut Vec<u8>, word: &[u8], first: u64, log: &Log) -> Result<(), Memory>
    requires { first < 2 ^ 63 }
    ensures { OnOk result (out.new.items ≡ out.old.items ++ (32 ∷ word.now ++ (32 ∷
        decimal (length log.now) ++ 10 ∷ lines_text (spec.log_lines first log.now)))) }
{
    put(out, b" ")?;
    put(out, word)?;
    put_number(out, u64::from(log.len()))?;
    put(out, b"\n")?;
    put_log(out, first, log)
}

/// The number of the first step of a query's log.
pub fn first_number(part: &Part, query: Query, k: u32) -> u64
    requires { IsUnrollable part.now k }
    ensures value { result ≡ spec.first_number part.now query k }
    ensures few { result < 2 ^ 63 }
{
    clause_count(part, query, k) + 1
}

/// Writes what follows a query and its number of cycles.
fn put_answer(out: &mut Vec<u8>, part: &Part, asked: &Asked) -> Result<(), Memory>
    requires { IsUnrollable part.now asked.now.k }
    ensures { OnOk result (out.new.items ≡ out.old.items ++ (
        spaced_fields (spec.answer_fields asked.now.answer) ++ 10 ∷ lines_text
        (spec.answer_lines part.now asked.now.query asked.now.k asked.now.answer))) }
{
    let first = first_number(part, asked.query, asked.k);
    match &asked.answer {
        Answer::Sat(run) => put_shown(out, run),
        Answer::Unsat(log) => put_logged(out, b"unsat", first, log),
        Answer::Spent(log) => put_logged(out, b"spent", first, log),
    }
}

/// Writes the lines of a query.
fn put_asked(out: &mut Vec<u8>, part: &Part, asked: &Asked) -> Result<(), Memory>
    requires { IsUnrollable part.now asked.now.k }
    ensures { OnOk result (out.new.items ≡ out.old.items
        ++ lines_text (spec.asked_lines part.now asked.now)) }
{
    put(out, word_of(asked.query))?;
    put_number(out, u64::from(asked.k))?;
    put_answer(out, part, asked)
}

fn put_queries(out: &mut Vec<u8>, part: &Part, queries: &[Asked]) -> Result<(), Memory>
    requires { (i : ℕ) (a : Asked) → slice_get queries.now i ≡ Some a → IsUnrollable part.now a.k }
    ensures { OnOk result (out.new.items ≡ out.old.items
        ++ lines_text (flat_map (spec.asked_lines part.now) queries.now)) }
{
    for asked in queries {
        put_asked(out, part, asked)?;
    }
    Ok(())
}

// ---- tries

fn put_end(out: &mut Vec<u8>, end: End) -> Result<(), Memory>
    ensures { OnOk result (out.new.items ≡ out.old.items ++ line_text (spec.end_line end)) }
{
    match end {
        End::Proved(k) => put_line(out, b"proved", &[k]),
        End::Fail(k) => put_line(out, b"fail", &[k]),
        End::Deep => put_word(out, b"deep"),
        End::Spent => put_word(out, b"spent"),
    }
}

/// Writes the head of a try of so many queries.
fn put_head(out: &mut Vec<u8>, s: &Strategy, queries: usize) -> Result<(), Memory>
    ensures { OnOk result (out.new.items ≡ out.old.items
        ++ line_text (spec.head_line (head_of s.now) queries)) }
{
    put(out, b"attempt ")?;
    put(out, s.name.bytes())?;
    put_number(out, u64::from(s.depth))?;
    put_number(out, s.conflicts)?;
    put_number(out, queries as u64)?;
    put(out, b"\n")
}

/// Writes the lines of a try of a strategy.
fn put_try(out: &mut Vec<u8>, part: &Part, s: &Strategy, t: &Try) -> Result<(), Memory>
    requires { IsTryOf part.now t.now }
    ensures { OnOk result (out.new.items ≡ out.old.items
        ++ lines_text (spec.attempt_lines part.now (head_of s.now) t.now.attempt)) }
{
    let attempt = &t.attempt;
    put_head(out, s, attempt.asked.len())?;
    put_queries(out, part, attempt.asked.as_slice())?;
    put_end(out, attempt.end)
}

fn put_tries(out: &mut Vec<u8>, part: &Part, s: &[Strategy], tries: &[Try]) -> Result<(), Memory>
    requires known { AreOf s.now tries.now }
    requires tries { (i : ℕ) (t : Try) → slice_get tries.now i ≡ Some t → IsTryOf part.now t }
    ensures { OnOk result (out.new.items ≡ out.old.items
        ++ lines_text (spec.tries_lines part.now (heads_of s.now tries.now) tries.now)) }
{
    for t in tries {
        put_try(out, part, &s[t.strategy as usize], t)?;
    }
    Ok(())
}

// ---- the whole

/// Writes the lines behind the tries.
fn put_verdict(out: &mut Vec<u8>, verdict: PartVerdict) -> Result<(), Memory>
    ensures { OnOk result (out.new.items ≡ out.old.items ++ lines_text
        (spec.verdict_line verdict ∷ (Word (codes "end") ∷ []) ∷ [])) }
{
    match verdict {
        PartVerdict::Proved { .. } => put(out, b"verdict proved\nend\n"),
        PartVerdict::Fail { .. } => put(out, b"verdict fail\nend\n"),
        PartVerdict::Unknown => put(out, b"verdict unknown\nend\n"),
    }
}

/// Writes the tries and what they came to.
fn put_decided(out: &mut Vec<u8>, part: &Part, s: &[Strategy], d: &Decided) -> Result<(), Memory>
    requires known { AreOf s.now d.now.tries }
    requires evidence { MakeEvidence part.now (heads_of s.now d.now.tries) d.now }
    ensures { OnOk result (out.new.items ≡ out.old.items
        ++ lines_text (spec.decided_lines part.now (heads_of s.now d.now.tries) d.now)) }
{
    put_count(out, b"attempts", d.tries.len())?;
    put_tries(out, part, s, d.tries.as_slice())?;
    put_verdict(out, d.verdict)
}

/// The text of a part, the tries on it and what they came to, each try with the head of its strategy.
pub fn print_evidence(
    alloc: Global,
    part: &Part,
    s: &[Strategy],
    d: &Decided,
) -> Result<Bytes, Memory>
    requires known { AreOf s.now d.now.tries }
    requires evidence { MakeEvidence part.now (heads_of s.now d.now.tries) d.now }
    ensures text { IfOk result (λ text.
        text ≡ spec.evidence_text part.now (heads_of s.now d.now.tries) d.now) }
{
    let mut out = Vec::new(alloc);
    put_words(&mut out, b"eqe", b"1")?;
    put_part(&mut out, part)?;
    put_decided(&mut out, part, s, d)?;
    Ok(Bytes::from_vec(out))
}

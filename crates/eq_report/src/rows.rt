//! Rows, and their lines.

ghost use Rattle.std.specs.Prelude.{◌≡◌, ◌++◌, IfOk, OnOk, decimal};
ghost use Rattle.eq_part.specs.Clashes.{part_name};
ghost use Rattle.eq_report.specs.Rows as spec;

use crate::put::{put, put_number};
use eq_base::Memory;
use eq_compose::{Cause, Causes, Row, Verdict};
use eq_config::Strategy;
use eq_induct::{Decided, End, PartVerdict, Try};
use eq_part::Partition;
use std::alloc::Global;

// ---- rows

/// The depth of the strategy of a number.
fn depth_at(strategies: &[Strategy], n: u32) -> u32
    ensures { result ≡ (spec.numbered_strategy strategies.now n).depth }
{
    match strategies.get(n as usize) {
        Some(strategy) => strategy.depth,
        None => 0,
    }
}

/// The conflicts of the strategy of a number.
fn conflicts_at(strategies: &[Strategy], n: u32) -> u64
    ensures { result ≡ (spec.numbered_strategy strategies.now n).conflicts }
{
    match strategies.get(n as usize) {
        Some(strategy) => strategy.conflicts,
        None => 0,
    }
}

/// Adds why a strategy gave up, where it did.
fn push_cause(causes: &mut Causes, strategies: &[Strategy], n: u32, end: End) -> Result<(), Memory>
    ensures { OnOk result (causes.new ≡ causes.old ++ spec.cause_of strategies.now n end) }
{
    match end {
        End::Proved(_) => Ok(()),
        End::Fail(_) => Ok(()),
        End::Deep => causes.push(Cause::Depth {
            strategy: n,
            depth: depth_at(strategies, n),
        }),
        End::Spent => causes.push(Cause::Conflicts {
            strategy: n,
            conflicts: conflicts_at(strategies, n),
        }),
    }
}

/// Why the strategies that were tried gave up.
fn causes_of(alloc: Global, strategies: &[Strategy], tries: &[Try]) -> Result<Causes, Memory>
    ensures { IfOk result (λ causes. causes ≡ spec.causes_of strategies.now tries.now) }
{
    let mut causes = Causes::new(alloc);
    for t in tries {
        push_cause(&mut causes, strategies, t.strategy, t.attempt.end)?;
    }
    Ok(causes)
}

/// The verdict of a partition, for which the strategies came to this.
fn verdict_of(alloc: Global, strategies: &[Strategy], d: &Decided) -> Result<Verdict, Memory>
    ensures { IfOk result (λ verdict.
        verdict ≡ spec.row_verdict strategies.now d.now.tries d.now.verdict) }
{
    match d.verdict {
        PartVerdict::Proved { k, strategy } => Ok(Verdict::Proved { k, strategy }),
        PartVerdict::Fail { k, strategy } => Ok(Verdict::Fail { k, strategy }),
        PartVerdict::Unknown => Ok(Verdict::Unknown(causes_of(
            alloc,
            strategies,
            d.tries.as_slice(),
        )?)),
    }
}

/// The row of the partition of this number, for which the strategies came to this.
pub fn row_of(alloc: Global, strategies: &[Strategy], part: u32, d: &Decided) -> Result<Row, Memory>
    ensures { IfOk result (λ row. row ≡ spec.row_of strategies.now part d.now) }
{
    let verdict = verdict_of(alloc, strategies, d)?;
    Ok(Row {
        part,
        verdict,
        kept: false,
        conflicts: d.conflicts,
    })
}

// ---- lines

/// The name of the strategy of a number.
fn strategy_name(strategies: &[Strategy], n: u32) -> &[u8]
    ensures { result.now ≡ (spec.numbered_strategy strategies.now n).name }
{
    match strategies.get(n as usize) {
        Some(strategy) => strategy.name.bytes(),
        None => b"",
    }
}

/// The name of the partition of a number.
fn part_name(parts: &[Partition], q: u32) -> &[u8]
    ensures { result.now ≡ part_name parts.now q }
{
    match parts.get(q as usize) {
        Some(part) => part.name.bytes(),
        None => b"",
    }
}

/// Writes which strategy gave up, and at which limit.
fn put_limit(
    alloc: Global,
    out: &mut Vec<u8>,
    name: &[u8],
    word: &[u8],
    limit: u64,
) -> Result<(), Memory>
    ensures { OnOk result (out.new.items ≡ out.old.items
        ++ (name.now ++ word.now ++ decimal limit)) }
{
    put(out, name)?;
    put(out, word)?;
    put_number(alloc, out, limit)
}

fn put_cause(
    alloc: Global,
    out: &mut Vec<u8>,
    strategies: &[Strategy],
    cause: Cause,
) -> Result<(), Memory>
    ensures { OnOk result (out.new.items ≡ out.old.items ++ spec.cause_text strategies.now cause) }
{
    match cause {
        Cause::Depth { strategy, depth } => {
            let name = strategy_name(strategies, strategy);
            put_limit(alloc, out, name, b" depth ", u64::from(depth))
        }
        Cause::Conflicts {
            strategy,
            conflicts,
        } => {
            let name = strategy_name(strategies, strategy);
            put_limit(alloc, out, name, b" conflicts ", conflicts)
        }
    }
}

/// Writes causes that follow another one.
fn put_further(
    alloc: Global,
    out: &mut Vec<u8>,
    strategies: &[Strategy],
    causes: &[Cause],
) -> Result<(), Memory>
    ensures { OnOk result (out.new.items ≡ out.old.items
        ++ spec.further_text strategies.now causes.now) }
{
    for cause in causes {
        put(out, b"; ")?;
        put_cause(alloc, out, strategies, *cause)?;
    }
    Ok(())
}

fn put_causes(
    alloc: Global,
    out: &mut Vec<u8>,
    strategies: &[Strategy],
    causes: &[Cause],
) -> Result<(), Memory>
    ensures { OnOk result (out.new.items ≡ out.old.items
        ++ spec.causes_text strategies.now causes.now) }
{
    match causes {
        [] => put(out, b"no strategy applies"),
        [cause, further @ ..] => {
            put_cause(alloc, out, strategies, *cause)?;
            put_further(alloc, out, strategies, further)
        }
    }
}

fn kept_word(kept: bool) -> &'static [u8]
    ensures { result.now ≡ spec.kept_text kept }
{
    if kept { b", kept" } else { b"" }
}

/// Writes by how many cycles and by which strategy a partition was decided.
fn put_decided(
    alloc: Global,
    out: &mut Vec<u8>,
    k: u32,
    strategy: &[u8],
    kept: bool,
) -> Result<(), Memory>
    ensures { OnOk result (out.new.items ≡ out.old.items
        ++ spec.decided_text k strategy.now kept) }
{
    put_number(alloc, out, u64::from(k))?;
    put(out, b" by ")?;
    put(out, strategy)?;
    put(out, kept_word(kept))
}

fn put_verdict(
    alloc: Global,
    out: &mut Vec<u8>,
    strategies: &[Strategy],
    kept: bool,
    verdict: &Verdict,
) -> Result<(), Memory>
    ensures { OnOk result (out.new.items ≡ out.old.items
        ++ spec.verdict_text strategies.now kept verdict.now) }
{
    match verdict {
        Verdict::Proved { k, strategy } => {
            put(out, b"PROVED ")?;
            put_decided(alloc, out, *k, strategy_name(strategies, *strategy), kept)
        }
        Verdict::Fail { k, strategy } => {
            put(out, b"FAIL ")?;
            put_decided(alloc, out, *k, strategy_name(strategies, *strategy), kept)
        }
        Verdict::Unknown(causes) => {
            put(out, b"UNKNOWN ")?;
            put_causes(alloc, out, strategies, causes.as_slice())
        }
        Verdict::Skipped => put(out, b"SKIPPED"),
    }
}

/// The line of a row, with its line feed.
pub fn row_line(
    alloc: Global,
    strategies: &[Strategy],
    parts: &[Partition],
    row: &Row,
) -> Result<Vec<u8>, Memory>
    ensures { IfOk result (λ line. line.items ≡ spec.row_line strategies.now parts.now row.now) }
{
    let mut line = Vec::new(alloc);
    put(&mut line, part_name(parts, row.part))?;
    put(&mut line, b": ")?;
    put_verdict(alloc, &mut line, strategies, row.kept, &row.verdict)?;
    put(&mut line, b"\n")?;
    Ok(line)
}

//! What all rows come to, and the two lines that say it.

ghost use Rattle.std.specs.Prelude.{◌≡◌, IfOk, count_by};
ghost use Rattle.eq_compose.specs.Rows.{is_failure, is_proof};
ghost use Rattle.eq_report.specs.Closing as spec;

use crate::put::put;
use eq_base::Memory;
use eq_compose::{Row, Verdict, Whole};
use std::alloc::Global;

/// How many rows say what, and how many clauses all of them learned.
#[derive(Clone, Copy)]
pub struct Counts {
    pub proved: u64,
    pub failed: u64,
    pub unknown: u64,
    pub skipped: u64,
    pub conflicts: u128,
}

fn proved(rows: &[Row]) -> u64
    ensures { result ≡ count_by (λ row. is_proof row.verdict) rows.now }
{
    rows.iter()
        .filter(|row| matches!(row.verdict, Verdict::Proved { .. }))
        .count() as u64
}

fn failed(rows: &[Row]) -> u64
    ensures { result ≡ count_by (λ row. is_failure row.verdict) rows.now }
{
    rows.iter()
        .filter(|row| matches!(row.verdict, Verdict::Fail { .. }))
        .count() as u64
}

fn unknown(rows: &[Row]) -> u64
    ensures { result ≡ count_by (λ row. spec.is_unknown_verdict row.verdict) rows.now }
{
    rows.iter()
        .filter(|row| matches!(row.verdict, Verdict::Unknown(_)))
        .count() as u64
}

fn skipped(rows: &[Row]) -> u64
    ensures { result ≡ count_by (λ row. spec.is_skipped_verdict row.verdict) rows.now }
{
    rows.iter()
        .filter(|row| matches!(row.verdict, Verdict::Skipped))
        .count() as u64
}

/// How many clauses all rows learned.
fn conflicts(rows: &[Row]) -> u128
    ensures { result ≡ spec.conflicts_of rows.now }
{
    let mut sum = 0;
    for row in rows {
        sum += u128::from(row.conflicts);
    }
    sum
}

/// How many rows say what, and how many clauses all of them learned.
pub fn counts_of(rows: &[Row]) -> Counts
    ensures { result ≡ spec.counts_of rows.now }
{
    Counts {
        proved: proved(rows),
        failed: failed(rows),
        unknown: unknown(rows),
        skipped: skipped(rows),
        conflicts: conflicts(rows),
    }
}

/// The line of counts.
fn counts_line(alloc: Global, counts: Counts) -> Result<Vec<u8>, Memory>
    ensures { IfOk result (λ line. line.items ≡ spec.counts_line counts) }
{
    let Counts {
        proved,
        failed,
        unknown,
        skipped,
        conflicts,
    } = counts;
    let line = format!(in alloc;
        "proved {proved}, failed {failed}, unknown {unknown}, skipped {skipped}, conflicts {conflicts}\n"
    )?;
    Ok(line.into_bytes())
}

fn whole_line(whole: Whole) -> &'static [u8]
    ensures { result.now ≡ spec.whole_line whole }
{
    match whole {
        Whole::Pass => b"PASS\n",
        Whole::Fail => b"FAIL\n",
        Whole::Unknown => b"UNKNOWN\n",
    }
}

/// The two lines behind the rows, each with its line feed.
pub fn closing_lines(alloc: Global, counts: Counts, whole: Whole) -> Result<Vec<u8>, Memory>
    ensures { IfOk result (λ lines. lines.items ≡ spec.closing_lines counts whole) }
{
    let mut lines = counts_line(alloc, counts)?;
    put(&mut lines, whole_line(whole))?;
    Ok(lines)
}

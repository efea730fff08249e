//! The report of a verdict.

ghost use Rattle.std.specs.Prelude.{◌≡◌, ◌≤◌, ◌++◌, IfOk, OnOk, OnErr, IsErrOf, codes};
ghost use Rattle.eq_io.specs.Faults.{Rose};
ghost use Rattle.eqy.specs.Lines.{counts_line, report, row_line, whole_line};
ghost use Rattle.eqy.specs.Output.{Adds, AddsFront};

use eq_base::Memory;
use eq_io::{Sink, SinkErr};
use std::alloc::Global;

/// What is found of an output.
#[derive(Clone, Copy, Debug, PartialEq, Eq)]
pub enum Verdict {
    /// Its values are equal for all values of the inputs.
    Proved,
    /// Its values differ for some.
    Fail,
}

/// The row of an output, by the strategy that decided it.
fn row(alloc: Global, verdict: Verdict, output: &[u8], strategy: &[u8]) -> Result<Vec<u8>, Memory>
    ensures { IfOk result (λ line. line.items ≡ row_line verdict output.now strategy.now) }
{
    let mut line = Vec::from_slice(alloc, output)?;
    match verdict {
        Verdict::Proved => line.extend_from_slice(b": PROVED 1 by ")?,
        Verdict::Fail => line.extend_from_slice(b": FAIL 1 by ")?,
    }
    line.extend_from_slice(strategy)?;
    line.push(b'\n')?;
    Ok(line)
}

fn counts(verdict: Verdict) -> &'static [u8]
    ensures { result.now ≡ counts_line verdict }
{
    match verdict {
        Verdict::Proved => b"proved 1, failed 0, unknown 0, skipped 0, conflicts 0\n",
        Verdict::Fail => b"proved 0, failed 1, unknown 0, skipped 0, conflicts 0\n",
    }
}

fn whole(verdict: Verdict) -> &'static [u8]
    ensures { result.now ≡ whole_line verdict }
{
    match verdict {
        Verdict::Proved => b"PASS\n",
        Verdict::Fail => b"FAIL\n",
    }
}

/// Puts a piece.
pub fn tell<O: Sink>(alloc: Global, out: &mut O, piece: &[u8]) -> Result<(), SinkErr>
    ensures ok { OnOk result (Adds (O.written out.old) (O.written out.new) piece.now) }
    ensures err { OnErr result (AddsFront (O.written out.old) (O.written out.new) piece.now) }
    ensures later { O.faults out.old ≤ O.faults out.new }
    ensures cause { IsErrOf result SinkErr.Failed → Rose (O.faults out.old) (O.faults out.new) }
{
    match out.put(alloc, piece) {
        Ok(()) => Ok(()),
        Err(SinkErr::Failed) => Err(SinkErr::Failed),
        Err(SinkErr::Memory) => Err(SinkErr::Memory),
    }
}

/// Puts two pieces.
fn tell_two<O: Sink>(alloc: Global, out: &mut O, first: &[u8], second: &[u8]) -> Result<(), SinkErr>
    ensures ok { OnOk result (Adds (O.written out.old) (O.written out.new) (first.now ++ second.now)) }
    ensures err { OnErr result (AddsFront (O.written out.old) (O.written out.new) (first.now ++ second.now)) }
    ensures later { O.faults out.old ≤ O.faults out.new }
    ensures cause { IsErrOf result SinkErr.Failed → Rose (O.faults out.old) (O.faults out.new) }
{
    match tell(alloc, out, first) {
        Ok(()) => tell(alloc, out, second),
        Err(e) => Err(e),
    }
}

/// Puts a row and the two closing lines.
fn tell_lines<O: Sink>(
    alloc: Global,
    out: &mut O,
    row: &[u8],
    verdict: Verdict,
) -> Result<(), SinkErr>
    ensures ok { OnOk result (Adds (O.written out.old) (O.written out.new) (row.now ++ (counts_line verdict ++ whole_line verdict))) }
    ensures err { OnErr result (AddsFront (O.written out.old) (O.written out.new) (row.now ++ (counts_line verdict ++ whole_line verdict))) }
    ensures later { O.faults out.old ≤ O.faults out.new }
    ensures cause { IsErrOf result SinkErr.Failed → Rose (O.faults out.old) (O.faults out.new) }
{
    match tell(alloc, out, row) {
        Ok(()) => tell_two(alloc, out, counts(verdict), whole(verdict)),
        Err(e) => Err(e),
    }
}

/// Puts the report of a verdict on one output by one strategy, a line at a time.
pub fn tell_report<O: Sink>(
    alloc: Global,
    out: &mut O,
    verdict: Verdict,
    output: &[u8],
    strategy: &[u8],
) -> Result<(), SinkErr>
    ensures ok { OnOk result (Adds (O.written out.old) (O.written out.new) (report verdict output.now strategy.now)) }
    ensures err { OnErr result (AddsFront (O.written out.old) (O.written out.new) (report verdict output.now strategy.now)) }
    ensures later { O.faults out.old ≤ O.faults out.new }
    ensures cause { IsErrOf result SinkErr.Failed → Rose (O.faults out.old) (O.faults out.new) }
{
    match row(alloc, verdict, output, strategy) {
        Ok(row) => tell_lines(alloc, out, &row, verdict),
        Err(_) => Err(SinkErr::Memory),
    }
}

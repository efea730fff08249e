//! Two designs as texts, and the lines of their partitions' rows. The lines were written out by hand.

ghost use Rattle.std.specs.Prelude.{◌<◌, ◌^◌, length};
ghost use Rattle.eq_config.specs.Configs.{IsConfig};
ghost use Rattle.eq_induct.specs.Outcome.{IsOutcome};
ghost use Rattle.eq_round.specs.Work.{IsWork};
ghost use Rattle.eq_wit.specs.Tried.{MayBeTried};

use crate::configs::config;
use crate::planning::plan;
use eq_config::Config;
use eq_net::Net;
use eq_report::{row_line, row_of};
use eq_round::{Done, Work, are_strategies_for, decide_partition, decide_round, evidence_of};
use eq_wit::read_evidence;
use std::alloc::Global;
use std::test::Fail;
use test_designs::netlist_of;

/// Gold, gate, lines behind the frame of a configuration, and the rows' lines.
pub(crate) type Row = (&'static str, &'static str, &'static str, &'static str);

static ROWS: [Row; 3] = [
    // two sides of one function, two that differ, and a partition that no strategy is for
    (
        "module t(a, b, y, z, w); input a, b; output y, z, w;
         assign y = a & b, z = a | b, w = a; endmodule",
        "module t(a, b, y, z, w); input a, b; output y, z, w;
         assign y = ~(~a | ~b), z = a ^ b, w = a; endmodule",
        "apply y\napply z\n",
        "y: PROVED 1 by s\nz: FAIL 1 by s\nw: UNKNOWN no strategy applies\n",
    ),
    // registers that are one pair
    (
        "module t(c, y); input c; output y; reg q = 1'b0; always @(posedge c) q <= ~q;
         assign y = q; endmodule",
        "module t(c, y); input c; output y; reg q = 1'b0; always @(posedge c) q <= q ^ 1'b1;
         assign y = q; endmodule",
        "",
        "y: PROVED 1 by s\nq: PROVED 1 by s\n",
    ),
    // that differ in their first value
    (
        "module t(c, y); input c; output y; reg q = 1'b0; always @(posedge c) q <= ~q;
         assign y = q; endmodule",
        "module t(c, y); input c; output y; reg q = 1'b1; always @(posedge c) q <= ~q;
         assign y = q; endmodule",
        "",
        "y: PROVED 1 by s\nq: FAIL 1 by s\n",
    ),
];

/// Whether an evidence is read back with as many tries and conflicts.
fn is_read_back(alloc: Global, work: &Work<'_>, done: &Done) -> Result<bool, Fail>
    requires tried { MayBeTried done.now.part work.now.strategies.now }
    requires outcome { IsOutcome done.now.part work.now.strategies.now done.now.decided }
{
    let text = evidence_of(alloc, work, done)?;
    if 0xffff_ffff < text.len() {
        return Ok(false);
    }
    match read_evidence(alloc, text.as_slice()) {
        Ok(read) => Ok(
            read.decided.tries.len() == done.decided.tries.len()
                && read.decided.conflicts == done.decided.conflicts,
        ),
        Err(_) => Ok(false),
    }
}

/// Whether the evidence of each of the first partitions is read back.
fn are_read_back(alloc: Global, work: &Work<'_>) -> Result<bool, Fail>
    requires work { IsWork work.now }
    requires few { length work.now.plan.now.parts < 2 ^ 31 }
{
    for i in 0..work.plan.parts.len() {
        let done = decide_partition(alloc, work, i as u32)?;
        if !is_read_back(alloc, work, &done)? {
            return Ok(false);
        }
    }
    Ok(true)
}

/// The lines of the rows of all partitions, in one round.
fn lines(alloc: Global, work: &Work<'_>) -> Result<Vec<u8>, Fail>
    requires work { IsWork work.now }
    requires few { length work.now.plan.now.parts < 2 ^ 31 }
{
    let count = work.plan.parts.len() as u32;
    let round = decide_round(alloc, work, 0, count)?;
    let mut text = Vec::new(alloc);
    let mut part = 0_u32;
    for done in round.as_slice() {
        let row = row_of(alloc, work.strategies, part, &done.decided)?;
        let line = row_line(alloc, work.strategies, work.plan.parts.as_slice(), &row)?;
        text.extend_from_slice(&line)?;
        part = part.saturating_add(1);
    }
    Ok(text)
}

/// Whether two netlists have these rows, and each evidence is read back.
fn has_rows(
    alloc: Global,
    gold: &Net,
    gate: &Net,
    config: &Config,
    wanted: &[u8],
) -> Result<bool, Fail>
    requires config { IsConfig config.now }
{
    let Some(plan) = plan(alloc, gold, gate, config)? else {
        return Ok(false);
    };
    let strategies = config.strategies.as_slice();
    if !are_strategies_for(gold, gate, strategies) {
        return Ok(false);
    }
    let work = Work::new(alloc, gold, gate, &plan, strategies)?;
    let text = lines(alloc, &work)?;
    Ok(text.as_slice() == wanted && are_read_back(alloc, &work)?)
}

fn comes_out(alloc: Global, row: &Row) -> Result<bool, Fail> {
    let (Ok(gold), Ok(gate)) = (
        netlist_of(alloc, &[row.0.as_bytes()], b"t"),
        netlist_of(alloc, &[row.1.as_bytes()], b"t"),
    ) else {
        return Ok(false);
    };
    match config(alloc, row.2.as_bytes())? {
        Some(config) => has_rows(alloc, &gold, &gate, &config, row.3.as_bytes()),
        None => Ok(false),
    }
}

/// The place of the first row that comes out otherwise.
pub(crate) fn first_wrong(alloc: Global, rows: &[Row]) -> Result<Option<usize>, Fail> {
    for (place, row) in rows.iter().enumerate() {
        if !comes_out(alloc, row)? {
            return Ok(Some(place));
        }
    }
    Ok(None)
}

#[test]
fn partitions_come_out_as_reckoned_by_hand(rt: HostRuntime) -> Result<(), Fail> {
    assert_eq!(rt; first_wrong(rt.alloc(), &ROWS)?, None);
    Ok(())
}

//! One partition of a plan, cut out and decided.

ghost use Rattle.std.specs.Prelude.{◌<◌, ◌≤◌, All, IfOk, length};
ghost use Rattle.eq_config.specs.declared.limits.TheConstants.{MOST_CONFLICTS, MOST_STRATEGIES};
ghost use Rattle.eq_round.specs.Done.{IsPartitionCut, IsPartitionDone};
ghost use Rattle.eq_round.specs.Work.{IsWork};
ghost use Rattle.eq_wit.specs.Tried.{MayBeTried};

use crate::work::Work;
use eq_base::Memory;
use eq_cone::{Part, cut};
use eq_induct::{Decided, decide};
use std::alloc::Global;

/// The part of a partition, and what the strategies came to on it.
#[derive(Drop)]
pub struct Done {
    pub part: Part,
    pub decided: Decided,
}

/// The part of a partition, on which all strategies may be tried.
fn cut_out(alloc: Global, work: &Work<'_>, i: u32) -> Result<Part, Memory>
    requires work { IsWork work.now }
    requires part { i < length work.now.plan.now.parts }
    ensures cut { IfOk result (IsPartitionCut work.now i) }
    ensures tried { IfOk result (λ part. MayBeTried part work.now.strategies.now) }
{
    cut(
        alloc,
        work.gold,
        work.gate,
        &work.gold_graph,
        &work.gate_graph,
        work.plan,
        &work.paired,
        i,
    )
}

/// Cuts partition `i` out of both netlists, and tries the strategies that are for it, up to one that decides.
pub fn decide_partition(alloc: Global, work: &Work<'_>, i: u32) -> Result<Done, Memory>
    requires work { IsWork work.now }
    requires part { i < length work.now.plan.now.parts }
    ensures ok { IfOk result (IsPartitionDone work.now i) }
{
    let part = cut_out(alloc, work, i)?;
    let decided = decide(alloc, &part, work.strategies)?;
    Ok(Done { part, decided })
}

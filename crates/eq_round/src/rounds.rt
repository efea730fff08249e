//! Partitions in rounds: so many at a time, one after another.

ghost use Rattle.std.specs.Prelude.{◌+◌, ◌<◌, ◌≤◌, ◌^◌, IfOk, length};
ghost use Rattle.eq_round.specs.Done.{AreDone};
ghost use Rattle.eq_round.specs.Work.{IsWork};

use crate::deciding::{Done, decide_partition};
use crate::work::Work;
use eq_base::Memory;
use std::alloc::Global;

/// Decides `count` partitions from partition `first` on, in order. It takes the memory of all their parts and logs.
pub fn decide_round(
    alloc: Global,
    work: &Work<'_>,
    first: u32,
    count: u32,
) -> Result<Vec<Done>, Memory>
    requires work { IsWork work.now }
    requires parts { first + count ≤ length work.now.plan.now.parts }
    requires numbers { first + count < 2 ^ 32 }
    ensures ok { IfOk result (λ round. AreDone work.now first count round.items) }
{
    let mut round = Vec::new(alloc);
    for j in 0..count {
        round.push(decide_partition(alloc, work, first + j)?)?;
    }
    Ok(round)
}

//! One partition of a plan, from its cut to its row.

ghost use Rattle.std.specs.Prelude.{◌≡◌, ◌<◌, IfOk, IfSome, length};
ghost use Rattle.eq_compose.specs.Rows.{IsRight};
ghost use Rattle.eq_net.specs.Whole.{parts_of};
ghost use Rattle.test_plans.specs.Work.{IsWork, verdict_of};

use eq_compose::laws::a_proved_part_never_differs;
use eq_compose::{Causes, Row, Verdict};
use eq_cone::{Graph, Part, Places, Plan, cut};
use eq_config::Strategy;
use eq_induct::{PartVerdict, are_usable, decide};
use eq_net::Net;
use std::alloc::Global;
use std::test::Fail;

/// Two netlists with their graphs, their plan with the table of its cuts, and strategies.
#[derive(Drop)]
pub struct Work<'a> {
    pub gold: &'a Net,
    pub gate: &'a Net,
    pub gold_graph: &'a Graph,
    pub gate_graph: &'a Graph,
    pub plan: &'a Plan,
    pub paired: &'a Places,
    pub strategies: &'a [Strategy],
}

/// What a row says of a part's verdict, without causes.
fn verdict(alloc: Global, of: PartVerdict) -> Verdict
    ensures { result ≡ verdict_of of }
{
    match of {
        PartVerdict::Proved { k, strategy } => Verdict::Proved { k, strategy },
        PartVerdict::Fail { k, strategy } => Verdict::Fail { k, strategy },
        PartVerdict::Unknown => Verdict::Unknown(Causes::new(alloc)),
    }
}

/// The row of a partition, if the strategies may be tried on its part.
pub fn row(alloc: Global, work: &Work<'_>, i: u32) -> Result<Option<Row>, Fail>
    requires work { IsWork work.now }
    requires part { i < length work.now.plan.now.parts }
    ensures number { IfOk result (λ found. IfSome found (λ row. row.part ≡ i)) }
    ensures right { IfOk result (λ found. IfSome found (λ row.
        IsRight (parts_of work.now.gold.now) (parts_of work.now.gate.now) work.now.plan.now i row.verdict)) }
{
    a_proved_part_never_differs();
    let part = cut(
        alloc,
        work.gold,
        work.gate,
        work.gold_graph,
        work.gate_graph,
        work.plan,
        work.paired,
        i,
    )?;
    if !are_usable(&part, work.strategies) {
        return Ok(None);
    }
    let decided = decide(alloc, &part, work.strategies)?;
    Ok(Some(Row {
        part: i,
        verdict: verdict(alloc, decided.verdict),
        kept: false,
        conflicts: decided.conflicts,
    }))
}

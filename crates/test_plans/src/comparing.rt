//! Two netlists and a configuration, through all layers to a verdict on the designs.

ghost use Rattle.std.specs.Prelude.{◌≡◌, ◌<◌, ◌^◌, IfOk, IfSome, length};
ghost use Rattle.eq_compose.specs.Rows.{AreRight, AreRowsOf};
ghost use Rattle.eq_compose.specs.declared.types.Whole.TheVariants.{Pass};
ghost use Rattle.eq_config.specs.Configs.{IsConfig};
ghost use Rattle.eq_match.specs.Seen.{HaveSamePorts};
ghost use Rattle.eq_model.specs.Run.{Equivalent};
ghost use Rattle.eq_net.specs.Net.{design_of};
ghost use Rattle.eq_net.specs.Whole.{parts_of};
ghost use Rattle.test_plans.specs.Work.{IsWork};

use crate::planning::plan;
use crate::row::{Work, row};
use eq_blast::blast;
use eq_compose::{Rows, Whole, conclude};
use eq_cone::laws::tables_fit;
use eq_cone::paired_nodes;
use eq_config::Config;
use eq_net::Net;
use std::alloc::Global;
use std::test::Fail;

/// The rows of all partitions, if the strategies may be tried on each part.
fn rows(alloc: Global, work: &Work<'_>) -> Result<Option<Rows>, Fail>
    requires work { IsWork work.now }
    requires few { length work.now.plan.now.parts < 2 ^ 31 }
    ensures rows { IfOk result (λ found. IfSome found (AreRowsOf work.now.plan.now)) }
    ensures right { IfOk result (λ found. IfSome found
        (AreRight (parts_of work.now.gold.now) (parts_of work.now.gate.now) work.now.plan.now)) }
{
    let mut rows = Rows::new(alloc);
    for i in 0..work.plan.parts.len() {
        match row(alloc, work, i as u32)? {
            Some(row) => rows.push(row)?,
            None => return Ok(None),
        }
    }
    Ok(Some(rows))
}

/// What is said of two netlists with the same ports, if they have a plan and no strategy is too deep for a part.
pub fn compared(
    alloc: Global,
    gold: &Net,
    gate: &Net,
    config: &Config,
) -> Result<Option<Whole>, Fail>
    requires ports { HaveSamePorts (parts_of gold.now) (parts_of gate.now) }
    requires config { IsConfig config.now }
    ensures { IfOk result (λ found. IfSome found (λ whole. whole ≡ Pass →
        Equivalent (design_of (parts_of gold.now)) (design_of (parts_of gate.now)))) }
{
    tables_fit();
    let Some(plan) = plan(alloc, gold, gate, config)? else {
        return Ok(None);
    };
    let strategies = config.strategies.as_slice();
    if strategies.len() > 16 {
        return Ok(None);
    }
    let gold_graph = blast(alloc, gold)?;
    let gate_graph = blast(alloc, gate)?;
    let paired = paired_nodes(alloc, &gold_graph, &gate_graph, &plan)?;
    let work = Work {
        gold,
        gate,
        gold_graph: &gold_graph,
        gate_graph: &gate_graph,
        plan: &plan,
        paired: &paired,
        strategies,
    };
    match rows(alloc, &work)? {
        Some(rows) => Ok(Some(conclude(gold, gate, &plan, rows.as_slice()))),
        None => Ok(None),
    }
}

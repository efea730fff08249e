//! What the partitions of a plan are decided by.

ghost use Rattle.std.specs.Prelude.{◌≡◌, ◌↔◌, All, IfOk, IsTrue};
ghost use Rattle.eq_net.specs.Whole.{parts_of};
ghost use Rattle.eq_part.specs.Plans.{IsPlanOf};
ghost use Rattle.eq_round.specs.Work.{AreStrategiesFor, IsLimited, IsWork, deepest, size_number};

use eq_base::Memory;
use eq_blast::{Graph, blast};
use eq_cone::laws::tables_fit;
use eq_cone::{Places, Plan, paired_nodes};
use eq_config::Strategy;
use eq_net::Net;
use std::alloc::Global;

/// The most that both netlists may cost together, times the cycles of a strategy's deepest runs.
pub const MOST_SIZE: u64 = 2_000_000;

/// The greatest depth, 0 where there is no strategy.
fn deepest(strategies: &[Strategy]) -> u32
    ensures { result ≡ deepest strategies.now }
{
    let mut depth = 0;
    for strategy in strategies {
        depth = depth.max(strategy.depth);
    }
    depth
}

/// What both netlists cost, once for each cycle of the longest run that is looked at.
pub fn size_number(gold: &Net, gate: &Net, strategies: &[Strategy]) -> u64
    ensures { result ≡ size_number gold.now gate.now strategies.now }
{
    (gold.cost() + gate.cost()) * (u64::from(deepest(strategies)) + 1)
}

/// Whether depth and conflicts of a strategy are within the limits of a configuration.
fn is_limited(s: &Strategy) -> bool
    ensures { IsTrue result ↔ IsLimited s.now }
{
    1 <= s.depth && s.depth <= 64 && 1 <= s.conflicts && s.conflicts <= 200_000
}

/// Whether each strategy is within these limits.
fn are_limited(strategies: &[Strategy]) -> bool
    ensures { IsTrue result ↔ All IsLimited strategies.now }
{
    strategies.iter().all(is_limited)
}

/// Whether strategies may be tried on all partitions of two netlists.
pub fn are_strategies_for(gold: &Net, gate: &Net, strategies: &[Strategy]) -> bool
    ensures { IsTrue result ↔ AreStrategiesFor gold.now gate.now strategies.now }
{
    strategies.len() <= 16
        && are_limited(strategies)
        && size_number(gold, gate, strategies) <= MOST_SIZE
}

/// Two netlists with their graphs, their plan with the table of its cuts, and strategies.
#[derive(Drop)]
pub struct Work<'a> {
    pub gold: &'a Net,
    pub gate: &'a Net,
    pub plan: &'a Plan,
    pub strategies: &'a [Strategy],
    pub gold_graph: Graph,
    pub gate_graph: Graph,
    /// Of each node of both graphs the pair whose bit's own node it is.
    pub paired: Places,
}

impl<'a> Work<'a> {
    /// The graphs of two netlists, and the table of their plan.
    pub fn new(
        alloc: Global,
        gold: &'a Net,
        gate: &'a Net,
        plan: &'a Plan,
        strategies: &'a [Strategy],
    ) -> Result<Work<'a>, Memory>
        requires plan { IsPlanOf (parts_of gold.now) (parts_of gate.now) plan.now }
        requires strategies { AreStrategiesFor gold.now gate.now strategies.now }
        ensures ok { IfOk result IsWork }
        ensures gold { IfOk result (λ work. work.gold.now ≡ gold.now) }
        ensures gate { IfOk result (λ work. work.gate.now ≡ gate.now) }
        ensures plan { IfOk result (λ work. work.plan.now ≡ plan.now) }
        ensures strategies { IfOk result (λ work. work.strategies.now ≡ strategies.now) }
    {
        tables_fit();
        let gold_graph = blast(alloc, gold)?;
        let gate_graph = blast(alloc, gate)?;
        let paired = paired_nodes(alloc, &gold_graph, &gate_graph, plan)?;
        Ok(Work {
            gold,
            gate,
            plan,
            strategies,
            gold_graph,
            gate_graph,
            paired,
        })
    }
}

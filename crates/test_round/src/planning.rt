//! The plan of two designs that can be compared.

ghost use Rattle.std.specs.Prelude.{◌<◌, ◌^◌, IfOk, IfSome, length};
ghost use Rattle.eq_config.specs.Configs.{IsConfig};
ghost use Rattle.eq_match.specs.Seen.{HaveSamePorts};
ghost use Rattle.eq_net.specs.Whole.{parts_of};
ghost use Rattle.eq_part.specs.Plans.{IsPlanOf};

use eq_config::Config;
use eq_marks::laws::ports_that_fit;
use eq_marks::same_ports;
use eq_match::laws::pairs_are_matched;
use eq_match::{groups, pairs};
use eq_net::Net;
use eq_part::laws::matched_pairs_are_few;
use eq_part::{Plan, PlanErr, partitions};
use std::alloc::Global;
use std::test::Fail;

/// The plan of two netlists with the same ports, or why there is none.
fn planned(alloc: Global, gold: &Net, gate: &Net, config: &Config) -> Result<Plan, PlanErr>
    requires ports { HaveSamePorts (parts_of gold.now) (parts_of gate.now) }
    requires config { IsConfig config.now }
    ensures plan { IfOk result (IsPlanOf (parts_of gold.now) (parts_of gate.now)) }
    ensures few { IfOk result (λ plan. length plan.parts < 2 ^ 31) }
{
    pairs_are_matched();
    matched_pairs_are_few();
    let pairs = pairs(alloc, gold, gate, config)?;
    let groups = groups(alloc, gold, &pairs, config)?;
    partitions(alloc, gold, gate, pairs, groups, config)
}

/// The plan of two netlists, if they can be compared and have one.
pub fn plan(alloc: Global, gold: &Net, gate: &Net, config: &Config) -> Result<Option<Plan>, Fail>
    requires config { IsConfig config.now }
    ensures plan { IfOk result (λ found. IfSome found
        (IsPlanOf (parts_of gold.now) (parts_of gate.now))) }
    ensures few { IfOk result (λ found. IfSome found (λ plan. length plan.parts < 2 ^ 31)) }
{
    ports_that_fit();
    match same_ports(alloc, gold, gate) {
        Ok(()) => match planned(alloc, gold, gate, config) {
            Ok(plan) => Ok(Some(plan)),
            Err(_) => Ok(None),
        },
        Err(_) => Ok(None),
    }
}

//! One partition cut out of two designs.

ghost use Rattle.std.specs.Prelude.{◌≡◌, ◌+◌, ◌<◌, ◌≤◌, IfOk, length};
ghost use Rattle.eq_model.specs.Denotes.{Denotes};
ghost use Rattle.eq_bits.specs.Replay.{meaning};
ghost use Rattle.eq_bits.specs.Shared.{Shared};
ghost use Rattle.eq_net.specs.Net.{system_of};
ghost use Rattle.eq_net.specs.Whole.{parts_of};
ghost use Rattle.eq_part.specs.Plans.{IsPlanOf, plan_of};
ghost use Rattle.eq_cone.specs.Cut.{HasInputNames, HasOutputNames, IsGraphOfNet, inverted_count, partition_at};
ghost use Rattle.eq_cone.specs.Paired.{ArePaired};

use crate::roots::Graphs;
use crate::sides::Sides;
use crate::steps::cut_out;
use eq_base::Memory;
use eq_bits::laws::{nodes_are_a_system, part_is_one};
use eq_bits::{Graph, Part};
use eq_model::laws::copied_graphs;
use eq_net::Net;
use eq_net::laws::net_is_design;
use eq_part::{Places, Plan};
use std::alloc::Global;

/// The part of partition `i`: the cones of its outputs in both graphs, up to the paired bits outside. `paired` is the
/// table that `paired_nodes` makes of the graphs and the plan. It takes the time and the memory of the cones.
pub fn cut(
    alloc: Global,
    gold_net: &Net,
    gate_net: &Net,
    gold: &Graph,
    gate: &Graph,
    plan: &Plan,
    paired: &Places,
    i: u32,
) -> Result<Part, Memory>
    requires gold { IsGraphOfNet gold_net.now gold.now }
    requires gate { IsGraphOfNet gate_net.now gate.now }
    requires plan { IsPlanOf (parts_of gold_net.now) (parts_of gate_net.now) plan.now }
    requires paired { ArePaired gold.now gate.now plan.now paired.now }
    requires part { i < length plan.now.parts }
    ensures denotes { IfOk result (λ part.
        Denotes (system_of (parts_of gold_net.now)) (system_of (parts_of gate_net.now))
        (plan_of (parts_of gold_net.now) (parts_of gate_net.now) plan.now)
        ((plan_of (parts_of gold_net.now) (parts_of gate_net.now) plan.now).holds i)
        (meaning part)) }
    ensures named { IfOk result (λ part. HasOutputNames gold_net.now.nets plan.now i part) }
    ensures inputs { IfOk result (λ part. HasInputNames gold_net.now.nets plan.now i part) }
    ensures bound { IfOk result (λ part. length part.nodes ≤
        gold_net.now.cost + gate_net.now.cost
        + inverted_count plan.now.pairs (partition_at plan.now i).outputs) }
    ensures shared { IfOk result (λ part. Shared part.nodes) }
{
    nodes_are_a_system();
    part_is_one();
    net_is_design();
    copied_graphs();
    let graphs = Graphs { gold, gate, plan };
    let sides = Sides {
        gold: gold.nodes.as_slice(),
        gate: gate.nodes.as_slice(),
        paired: paired.as_slice(),
        owners: plan.owners.as_slice(),
        pairs: plan.pairs.as_slice(),
        part: i,
    };
    cut_out(
        alloc,
        gold_net,
        &graphs,
        &sides,
        &plan.parts.as_slice()[i as usize],
    )
}

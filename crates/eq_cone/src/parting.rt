//! The outputs, the names, and the part of a copied cone.

ghost use Rattle.std.specs.Prelude.{◌≡◌, ℕ, ◌+◌, ◌-◌, ◌<◌, ◌≤◌, ◌^◌, IfOk, length};
ghost use Rattle.eq_model.specs.System.{IsInput};
ghost use Rattle.eq_bits.specs.Node.{driver_of, node_at};
ghost use Rattle.eq_bits.specs.Shared.{Shared};
ghost use Rattle.eq_match.specs.Pairs.{pair_at};
ghost use Rattle.eq_cone.specs.Paired.{own_in_gate};
ghost use Rattle.eq_cone.specs.inner.Copying.{AreInputNodes, new_of, place_of};
ghost use Rattle.eq_cone.specs.inner.Steps.{IsNamedPart};
ghost use Rattle.eq_cone.specs.inner.Roots.{AreGraphs, HasPositions};
ghost use Rattle.eq_cone.specs.inner.Outputs.{AreNames, AreOutputsOf, HasNamedBits, HaveNodes, IsOutputOf, IsSignedMade, name_of};

use crate::copying::{Copied, new_of};
use crate::numbers::Numbers;
use crate::roots::Graphs;
use eq_base::Memory;
use eq_bits::{Builder, Name, Names, Node, Output, Outputs, Part};
use eq_net::{Net, bit_text};
use eq_part::Partition;
use std::alloc::Global;
use std::collections::HashMap;

/// A node, negated where the sign says so.
fn signed(builder: &mut Builder, node: u32, inverted: bool) -> Result<u32, Memory>
    requires node { node < length builder.old }
    requires room { length builder.old < 2 ^ 32 - 1 }
    ensures { IfOk result (λ number.
        IsSignedMade inverted node builder.old builder.new number) }
{
    if inverted {
        builder.node(Node::Not(node))
    } else {
        Ok(node)
    }
}

/// The name of a pair's bit of gold.
fn name(alloc: Global, net: &Net, graphs: &Graphs<'_>, pair: u32) -> Result<Name, Memory>
    requires bits { HasNamedBits net.now.nets graphs.now }
    requires pair { pair < length graphs.now.plan.now.pairs }
    ensures { IfOk result (λ name. name ≡ name_of net.now.nets graphs.now pair) }
{
    bit_text(alloc, net, graphs.plan.pairs.as_slice()[pair as usize].gold)
}

/// The output of a pair.
fn output(
    alloc: Global,
    net: &Net,
    graphs: &Graphs<'_>,
    places: &HashMap<u32, u32>,
    builder: &mut Builder,
    pair: u32,
) -> Result<Output, Memory>
    requires graphs { AreGraphs graphs.now }
    requires bits { HasNamedBits net.now.nets graphs.now }
    requires pair { pair < length graphs.now.plan.now.pairs }
    requires node { new_of (place_of places.now) (length graphs.now.gold.now.nodes
        + own_in_gate graphs.now.gate.now graphs.now.plan.now pair) < length builder.old }
    requires room { length builder.old < 2 ^ 32 - 1 }
    ensures { IfOk result (λ output. IsOutputOf net.now.nets graphs.now (place_of places.now)
        pair builder.old builder.new output) }
{
    let inverted = graphs.plan.pairs.as_slice()[pair as usize].inverted;
    let gold = new_of(places, graphs.gold_node(pair));
    let gate = signed(builder, new_of(places, graphs.gate_node(pair)), inverted)?;
    Ok(Output {
        name: name(alloc, net, graphs, pair)?,
        gold,
        gate,
    })
}

/// The outputs of the pairs at these positions.
fn outputs(
    alloc: Global,
    net: &Net,
    graphs: &Graphs<'_>,
    places: &HashMap<u32, u32>,
    builder: &mut Builder,
    positions: &[u32],
) -> Result<Outputs, Memory>
    requires graphs { AreGraphs graphs.now }
    requires bits { HasNamedBits net.now.nets graphs.now }
    requires positions { HasPositions graphs.now positions.now }
    requires nodes { HaveNodes graphs.now positions.now (place_of places.now) builder.old }
    requires room { length builder.old + length positions.now < 2 ^ 32 - 1 }
    ensures { IfOk result (λ outputs. AreOutputsOf net.now.nets graphs.now positions.now
        (place_of places.now) builder.old builder.new outputs (length positions.now)) }
{
    let mut outputs = Outputs::new(alloc);
    for place in 0..positions.len() {
        outputs.push(output(alloc, net, graphs, places, builder, positions[place])?)?;
    }
    Ok(outputs)
}

/// The names of gold's bits of these pairs.
fn names(alloc: Global, net: &Net, graphs: &Graphs<'_>, inputs: &Numbers) -> Result<Names, Memory>
    requires bits { HasNamedBits net.now.nets graphs.now }
    requires inputs { HasPositions graphs.now inputs.now }
    ensures { IfOk result (λ names.
        AreNames net.now.nets graphs.now inputs.now names (length inputs.now)) }
{
    let mut names = Names::new(alloc);
    for place in 0..inputs.len() {
        names.push(name(alloc, net, graphs, inputs.at(place))?)?;
    }
    Ok(names)
}

/// The part of a copied cone.
pub fn part(
    alloc: Global,
    net: &Net,
    graphs: &Graphs<'_>,
    copied: Copied,
    inputs: &Numbers,
    partition: &Partition,
) -> Result<Part, Memory>
    requires graphs { AreGraphs graphs.now }
    requires bits { HasNamedBits net.now.nets graphs.now }
    requires positions { HasPositions graphs.now partition.now.outputs }
    requires inputs { HasPositions graphs.now inputs.now }
    requires nodes { HaveNodes graphs.now partition.now.outputs (place_of copied.places)
        copied.builder }
    requires input_nodes { AreInputNodes copied.builder (length inputs.now) }
    requires no_others { (k : ℕ) → length inputs.now ≤ k → k < length copied.builder →
        ¬ IsInput (driver_of (node_at copied.builder k)) }
    requires few_inputs { length inputs.now < 2 ^ 32 }
    requires few_outputs { length partition.now.outputs < 2 ^ 32 }
    requires room { length copied.builder + length partition.now.outputs < 2 ^ 32 - 1 }
    ensures ok { IfOk result (λ part. IsNamedPart net.now.nets graphs.now partition.now.outputs
        inputs.now (place_of copied.places) copied.builder part) }
    ensures name { IfOk result (λ part. part.name ≡ partition.now.name) }
    ensures shared { IfOk result (λ part. Shared part.nodes) }
{
    let Copied {
        mut builder,
        places,
    } = copied;
    let positions = partition.outputs.as_slice();
    let outputs = outputs(alloc, net, graphs, &places, &mut builder, positions)?;
    let inputs = names(alloc, net, graphs, inputs)?;
    Ok(Part {
        name: partition.name.copy(alloc)?,
        inputs,
        nodes: builder.finish(),
        outputs,
    })
}

//! The plan of a chain of stages and itself by 100 lines, and the parts of all its partitions.

ghost use Rattle.std.specs.Prelude.{◌≡◌, ◌+◌, ◌*◌, ◌<◌, ◌≤◌, IfOk, IfSome, length};
ghost use Rattle.eq_config.specs.Configs.{IsConfig};
ghost use Rattle.eq_cone.specs.Cut.{IsGraphOfNet};
ghost use Rattle.eq_cone.specs.Paired.{ArePaired};
ghost use Rattle.eq_net.specs.Whole.{parts_of};
ghost use Rattle.eq_part.specs.Plans.{IsPlanOf};
ghost use Rattle.eq_part.specs.declared.limits.TheConstants.{MOST_PARTITIONS};

use eq_base::Memory;
use eq_blast::{Graph, blast};
use eq_cone::laws::tables_fit;
use eq_cone::{Places, cut, paired_nodes};
use eq_config::{Config, read_config};
use eq_match::laws::pairs_are_matched;
use eq_match::{groups, pairs};
use eq_net::Net;
use eq_part::laws::matched_pairs_are_few;
use eq_part::{Plan, partitions};
use std::alloc::Global;
use test_series::chain_of_stages;

/// How far to go.
#[derive(Clone, Copy)]
pub enum Goal {
    /// To the plan: how many partitions there are.
    Plan,
    /// To the graphs: how many nodes both have.
    Graphs,
    /// To the parts: how many nodes all have.
    Parts,
}

const FRAME: &[u8] =
    b"[gold]\nread_verilog a\nprep -top t\n[gate]\nread_verilog b\nprep -top t\n[strategy s]\nuse sat\n";

/// Ten lines, with `#` for a digit. They look at all nets, and pair, part and name them, but leave a partition for each net.
const LINES: &[u8] =
    b"[match]\ngold-match n*# n%1#\ngate-match n*# n%1#\ngold-nomatch x*#\ngate-nomatch x*#\n\
[collect]\nsolo n000#\njoin n000#\ngroup n001#\n[partition]\nmerge n002#\npath n003# n003#\nname n*# p%1#\n";

fn push_lines(digit: u8, text: &mut Vec<u8>) -> Result<(), Memory> {
    for byte in LINES {
        text.push(if *byte == b'#' { digit } else { *byte })?;
    }
    Ok(())
}

/// The configuration of the frame and the lines of all ten digits, if there is one.
fn config(alloc: Global) -> Result<Option<Config>, Memory>
    ensures { IfOk result (λ found. IfSome found IsConfig) }
{
    let mut text = Vec::from_slice(alloc, FRAME)?;
    for digit in b'0'..b':' {
        push_lines(digit, &mut text)?;
    }
    if 67_108_864 < text.len() {
        return Ok(None);
    }
    match read_config(alloc, &text) {
        Ok(config) => Ok(Some(config)),
        Err(_) => Ok(None),
    }
}

/// The plan of two netlists that are the same, if they have one.
fn plan(alloc: Global, gold: &Net, gate: &Net, config: &Config) -> Result<Option<Plan>, Memory>
    requires same { parts_of gate.now ≡ parts_of gold.now }
    requires config { IsConfig config.now }
    ensures plan { IfOk result (λ found. IfSome found
        (IsPlanOf (parts_of gold.now) (parts_of gate.now))) }
    ensures few { IfOk result (λ found. IfSome found (λ plan.
        length plan.parts ≤ MOST_PARTITIONS)) }
{
    pairs_are_matched();
    matched_pairs_are_few();
    let pairs = pairs(alloc, gold, gate, config)?;
    let groups = groups(alloc, gold, &pairs, config)?;
    match partitions(alloc, gold, gate, pairs, groups, config) {
        Ok(plan) => Ok(Some(plan)),
        Err(_) => Ok(None),
    }
}

/// How many nodes the part of a partition has.
fn part_nodes(
    alloc: Global,
    gold: &Net,
    gate: &Net,
    gold_graph: &Graph,
    gate_graph: &Graph,
    plan: &Plan,
    paired: &Places,
    i: u32,
) -> Result<u64, Memory>
    requires gold { IsGraphOfNet gold.now gold_graph.now }
    requires gate { IsGraphOfNet gate.now gate_graph.now }
    requires plan { IsPlanOf (parts_of gold.now) (parts_of gate.now) plan.now }
    requires paired { ArePaired gold_graph.now gate_graph.now plan.now paired.now }
    requires part { i < length plan.now.parts }
{
    let part = cut(alloc, gold, gate, gold_graph, gate_graph, plan, paired, i)?;
    Ok(part.nodes.len() as u64)
}

/// How many nodes the parts of all partitions have.
fn all_nodes(
    alloc: Global,
    gold: &Net,
    gate: &Net,
    gold_graph: &Graph,
    gate_graph: &Graph,
    plan: &Plan,
) -> Result<u64, Memory>
    requires gold { IsGraphOfNet gold.now gold_graph.now }
    requires gate { IsGraphOfNet gate.now gate_graph.now }
    requires plan { IsPlanOf (parts_of gold.now) (parts_of gate.now) plan.now }
    requires few { length plan.now.parts ≤ MOST_PARTITIONS }
{
    tables_fit();
    let paired = paired_nodes(alloc, gold_graph, gate_graph, plan)?;
    let mut nodes: u64 = 0;
    for i in 0..plan.parts.len() {
        let more = part_nodes(
            alloc, gold, gate, gold_graph, gate_graph, plan, &paired, i as u32,
        )?;
        nodes = nodes.wrapping_add(more);
    }
    Ok(nodes)
}

/// How many nodes both graphs have, or the parts of all partitions.
fn nodes(alloc: Global, gold: &Net, gate: &Net, plan: &Plan, parts: bool) -> Result<u64, Memory>
    requires plan { IsPlanOf (parts_of gold.now) (parts_of gate.now) plan.now }
    requires few { length plan.now.parts ≤ MOST_PARTITIONS }
{
    let gold_graph = blast(alloc, gold)?;
    let gate_graph = blast(alloc, gate)?;
    if parts {
        all_nodes(alloc, gold, gate, &gold_graph, &gate_graph, plan)
    } else {
        Ok((gold_graph.nodes.len() as u64).wrapping_add(gate_graph.nodes.len() as u64))
    }
}

/// What is counted of two netlists that are the same; 0 where they have no plan.
fn counted(alloc: Global, gold: &Net, gate: &Net, goal: Goal) -> Result<u64, Memory>
    requires same { parts_of gate.now ≡ parts_of gold.now }
{
    let Some(config) = config(alloc)? else {
        return Ok(0);
    };
    let Some(plan) = plan(alloc, gold, gate, &config)? else {
        return Ok(0);
    };
    match goal {
        Goal::Plan => Ok(plan.parts.len() as u64),
        Goal::Graphs => nodes(alloc, gold, gate, &plan, false),
        Goal::Parts => nodes(alloc, gold, gate, &plan, true),
    }
}

/// What is counted of so many stages of so many bits on both sides.
fn of_stages(alloc: Global, width: u32, count: u32, goal: Goal) -> Result<u64, Memory>
    requires bits { 0 < width }
    requires some { 0 < count }
    requires few { count < 10000 }
    requires cost { 2 + width + 2 * (count * width) ≤ 2000000 }
{
    let gold = chain_of_stages(alloc, width, count)?;
    let gate = chain_of_stages(alloc, width, count)?;
    counted(alloc, &gold, &gate, goal)
}

/// 4,096 stages of 244 bits: 999,668 bits on each side, which cost 1,999,094.
pub fn of_many(alloc: Global, goal: Goal) -> Result<u64, Memory> {
    of_stages(alloc, 244, 4096, goal)
}

/// 64 stages of 4 bits.
pub fn of_few(alloc: Global, goal: Goal) -> Result<u64, Memory> {
    of_stages(alloc, 4, 64, goal)
}

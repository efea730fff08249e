//! Parts of partitions, node by node.

ghost use Rattle.std.specs.Prelude.{◌≡◌, ◌<◌, IfOk, length};
ghost use Rattle.eq_config.specs.Configs.{IsConfig};
ghost use Rattle.eq_match.specs.Seen.{HaveSamePorts};
ghost use Rattle.eq_net.specs.Whole.{parts_of};

use crate::cases::wanted::{Row, Wanted};
use crate::cases::{gate_parts, register_parts};
use crate::cells::celled;
use crate::chains::chain;
use crate::configs::config;
use crate::crossing::{crossing_gate, crossing_gold};
use crate::planning::{plan, planned};
use crate::ports::have_same_ports;
use crate::tables::gates::{AND_GATE, AND_GOLD, JOINT_GATE, JOINT_GOLD, OR_GATE, OR_GOLD};
use crate::tables::registers::{COUNTER_GATE, COUNTER_GOLD, ENABLED_GATE, ENABLED_GOLD};
use eq_bits::{Name, Node, Output, Part};
use eq_blast::blast;
use eq_cone::laws::tables_fit;
use eq_cone::{cut, paired_nodes};
use eq_config::Config;
use eq_net::Net;
use std::alloc::Global;
use std::test::Fail;
use test_series::chain_of_stages;

/// A netlist by its number: two that cross, chains, and from 10 on netlists of cells.
pub fn design(alloc: Global, number: u8) -> Result<Net, Fail> {
    match number {
        0 => crossing_gold(alloc),
        1 => crossing_gate(alloc),
        10 => celled(alloc, &AND_GOLD),
        11 => celled(alloc, &AND_GATE),
        12 => celled(alloc, &OR_GOLD),
        13 => celled(alloc, &OR_GATE),
        14 => celled(alloc, &JOINT_GOLD),
        15 => celled(alloc, &JOINT_GATE),
        16 => celled(alloc, &COUNTER_GOLD),
        17 => celled(alloc, &COUNTER_GATE),
        18 => celled(alloc, &ENABLED_GOLD),
        19 => celled(alloc, &ENABLED_GATE),
        _ => chain(alloc, number),
    }
}

/// The part of a partition, if there is a plan with so many.
pub fn part_of(
    alloc: Global,
    gold: &Net,
    gate: &Net,
    config: &Config,
    i: u32,
) -> Result<Option<Part>, Fail>
    requires ports { HaveSamePorts (parts_of gold.now) (parts_of gate.now) }
    requires config { IsConfig config.now }
{
    tables_fit();
    let Some(plan) = plan(alloc, gold, gate, config)? else {
        return Ok(None);
    };
    if i as usize >= plan.parts.len() {
        return Ok(None);
    }
    let gold_graph = blast(alloc, gold)?;
    let gate_graph = blast(alloc, gate)?;
    let paired = paired_nodes(alloc, &gold_graph, &gate_graph, &plan)?;
    let part = cut(
        alloc,
        gold,
        gate,
        &gold_graph,
        &gate_graph,
        &plan,
        &paired,
        i,
    )?;
    Ok(Some(part))
}

fn are_names(names: &[Name], wanted: &[&[u8]]) -> bool {
    if names.len() != wanted.len() {
        return false;
    }
    for i in 0..names.len() {
        if names[i].bytes() != wanted[i] {
            return false;
        }
    }
    true
}

fn are_outputs(outputs: &[Output], wanted: &[(&[u8], u32, u32)]) -> bool {
    if outputs.len() != wanted.len() {
        return false;
    }
    for i in 0..outputs.len() {
        let (name, gold, gate) = wanted[i];
        let output = &outputs[i];
        if output.name.bytes() != name || output.gold != gold || output.gate != gate {
            return false;
        }
    }
    true
}

fn is_part(part: &Part, wanted: &Wanted) -> bool {
    part.name.bytes() == wanted.name
        && are_names(part.inputs.as_slice(), wanted.inputs)
        && part.nodes.as_slice() == wanted.nodes
        && are_outputs(part.outputs.as_slice(), wanted.outputs)
}

fn is_wanted(part: Option<Part>, wanted: &Wanted) -> bool {
    match part {
        Some(part) => is_part(&part, wanted),
        None => false,
    }
}

/// Whether the part of a row is as wanted, also when it is cut again.
fn is_right(alloc: Global, row: &Row) -> Result<bool, Fail> {
    let (gold, gate, lines, i, wanted) = *row;
    let gold = design(alloc, gold)?;
    let gate = design(alloc, gate)?;
    let Some(config) = config(alloc, lines)? else {
        return Ok(false);
    };
    if !have_same_ports(&gold, &gate) {
        return Ok(false);
    }
    let once = is_wanted(part_of(alloc, &gold, &gate, &config, i)?, &wanted);
    let again = is_wanted(part_of(alloc, &gold, &gate, &config, i)?, &wanted);
    Ok(once && again)
}

/// The first row with another part.
fn first_wrong(alloc: Global, rows: &[Row]) -> Result<Option<usize>, Fail> {
    for (number, row) in rows.iter().enumerate() {
        if !is_right(alloc, row)? {
            return Ok(Some(number));
        }
    }
    Ok(None)
}

/// The first row with another part among those without registers, and among those with them.
fn wrong_rows(alloc: Global) -> Result<(Option<usize>, Option<usize>), Fail> {
    let without = first_wrong(alloc, &gate_parts::ROWS)?;
    let with = first_wrong(alloc, &register_parts::ROWS)?;
    Ok((without, with))
}

#[test]
fn parts_have_these_nodes(rt: HostRuntime) -> Result<(), Fail> {
    assert_eq!(rt; wrong_rows(rt.alloc())?, (None, None));
    Ok(())
}

/// The nodes of the part of each stage but the first: the input, the stage before, and their exclusive or on both sides.
const STAGE: &[Node] = &[
    Node::Input(0),
    Node::Input(1),
    Node::Xor(0, 1),
    Node::Buf(2),
    Node::Buf(2),
];

/// Whether a part is that of a stage behind the first.
fn is_stage(part: &Part) -> bool {
    part.inputs.len() == 2 && part.nodes.as_slice() == STAGE && part.outputs.len() == 1
}

/// The first stage behind the first one, of a chain in a netlist and itself, with another part.
fn first_other(alloc: Global, net: &Net, config: &Config) -> Result<Option<usize>, Fail>
    requires ports { HaveSamePorts (parts_of net.now) (parts_of net.now) }
    requires config { IsConfig config.now }
{
    tables_fit();
    let plan = planned(alloc, net, net, config)?;
    let graph = blast(alloc, net)?;
    let paired = paired_nodes(alloc, &graph, &graph, &plan)?;
    for i in 1..plan.parts.len() {
        let part = cut(alloc, net, net, &graph, &graph, &plan, &paired, i as u32)?;
        if !is_stage(&part) {
            return Ok(Some(i));
        }
    }
    Ok(None)
}

/// How many stages there are, and the first with another part.
fn stages(alloc: Global) -> Result<(usize, Option<usize>), Fail> {
    let net = chain_of_stages(alloc, 1, 1000)?;
    let Some(config) = config(alloc, b"")? else {
        return Ok((0, None));
    };
    if !have_same_ports(&net, &net) {
        return Ok((0, None));
    }
    Ok((net.words.len(), first_other(alloc, &net, &config)?))
}

#[test]
fn each_of_1000_stages_is_cut_out_of_the_chain(rt: HostRuntime) -> Result<(), Fail> {
    assert_eq!(rt; stages(rt.alloc())?, (1000, None));
    Ok(())
}

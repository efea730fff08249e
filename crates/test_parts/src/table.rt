//! Tables of nodes and outputs, and the parts that they make.

ghost use Rattle.std.specs.Prelude.{◌≡◌, ◌<◌, ◌^◌, ◌↔◌, All, IfOk, IsTrue, length, map};
ghost use Rattle.test_parts.specs.Table.{AreRows, IsRow, IsSides, IsTable, sides_of};

use eq_base::Memory;
use eq_bits::{Name, Names, Node, Nodes, Output, Outputs, Part};
use std::alloc::Global;

/// The two nodes of an output.
#[derive(Clone, Copy, Debug, PartialEq, Eq)]
pub struct Sides {
    pub gold: u32,
    pub gate: u32,
}

/// Whether this may be node m of n. The node of input i has the number i.
fn is_row(n: u32, inputs: u32, m: u32, node: Node) -> bool
    ensures { IsTrue result ↔ IsRow n inputs m node }
{
    match node {
        Node::Const(_) => true,
        Node::Input(i) => i == m && i < inputs,
        Node::Not(a) => a < m,
        Node::And(a, b) => a < m && b < m,
        Node::Xor(a, b) => a < m && b < m,
        Node::Mux(s, a, b) => s < m && a < m && b < m,
        Node::Buf(a) => a < m,
        Node::Reg { next, .. } => next < n,
    }
}

fn are_rows(inputs: u32, nodes: &[Node]) -> bool
    requires { length nodes.now < 2 ^ 32 }
    ensures { IsTrue result ↔ AreRows inputs nodes.now }
{
    for (m, node) in nodes.iter().enumerate() {
        if !is_row(nodes.len() as u32, inputs, m as u32, *node) {
            return false;
        }
    }
    true
}

fn are_sides(n: u32, outputs: &[Sides]) -> bool
    ensures { IsTrue result ↔ All (IsSides n) outputs.now }
{
    outputs.iter().all(|sides| sides.gold < n && sides.gate < n)
}

/// Whether a table makes a part.
pub fn is_table(inputs: u32, nodes: &[Node], outputs: &[Sides]) -> bool
    ensures { IsTrue result ↔ IsTable inputs nodes.now outputs.now }
{
    nodes.len() <= 0xFFFF_FFFF
        && outputs.len() <= 0xFFFF_FFFF
        && are_rows(inputs, nodes)
        && are_sides(nodes.len() as u32, outputs)
}

/// So many inputs of one name.
fn inputs(alloc: Global, name: &Name, count: u32) -> Result<Names, Memory>
    ensures { IfOk result (λ inputs. length inputs ≡ count) }
{
    let mut inputs = Names::new(alloc);
    for _ in 0..count {
        inputs.push(name.copy(alloc)?)?;
    }
    Ok(inputs)
}

/// An output of this name.
fn output(alloc: Global, name: &Name, sides: Sides) -> Result<Output, Memory>
    ensures { IfOk result (λ output. sides_of output ≡ sides) }
{
    Ok(Output {
        name: name.copy(alloc)?,
        gold: sides.gold,
        gate: sides.gate,
    })
}

/// Outputs of one name.
fn outputs(alloc: Global, name: &Name, rows: &[Sides]) -> Result<Outputs, Memory>
    ensures { IfOk result (λ outputs. map sides_of outputs ≡ rows.now) }
{
    let mut outputs = Outputs::new(alloc);
    for sides in rows {
        outputs.push(output(alloc, name, *sides)?)?;
    }
    Ok(outputs)
}

/// The part of a table. It, its inputs and its outputs all have this name.
pub fn part(
    alloc: Global,
    name: &Name,
    count: u32,
    nodes: &[Node],
    rows: &[Sides],
) -> Result<Part, Memory>
    requires { IsTable count nodes.now rows.now }
    ensures inputs { IfOk result (λ part. length part.inputs ≡ count) }
    ensures nodes { IfOk result (λ part. part.nodes ≡ nodes.now) }
    ensures outputs { IfOk result (λ part. map sides_of part.outputs ≡ rows.now) }
{
    let inputs = inputs(alloc, name, count)?;
    let outputs = outputs(alloc, name, rows)?;
    let nodes = Nodes::from_slice(alloc, nodes)?;
    let name = name.copy(alloc)?;
    Ok(Part {
        name,
        inputs,
        nodes,
        outputs,
    })
}

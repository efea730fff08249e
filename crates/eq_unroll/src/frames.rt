//! The clauses of all nodes and outputs, frame by frame.

ghost use Rattle.std.specs.Prelude.{◌≡◌, ◌+◌, ◌*◌, ◌<◌, ◌≤◌, ◌^◌, [], ◌∷◌, ◌++◌, map, length, All, OnOk};
ghost use Rattle.eq_bits.specs.Node.{AreNodes};
ghost use Rattle.eq_bits.specs.Part.{NamesNodes};
ghost use Rattle.eq_unroll.specs.Unrolling.{agreement_rows, difference_rows, equal_rows, frame_rows, nodes_rows, ordered, output_literals};

use crate::literals::literal;
use crate::nodes::{push_differ, push_node, push_same};
use crate::query::Query;
use eq_base::Memory;
use eq_bits::{Node, Output};
use eq_proof::Clauses;
use std::alloc::Global;

/// Appends the clauses of all nodes in frame f.
fn push_frame(clauses: &mut Clauses, q: Query, nodes: &[Node], f: u32) -> Result<(), Memory>
    requires operands { AreNodes nodes.now }
    requires fits { f * length nodes.now + length nodes.now < 2 ^ 31 }
    ensures { OnOk result (clauses.new ≡ clauses.old ++ map ordered (nodes_rows nodes.now q f)) }
{
    let n = nodes.len() as u32;
    for (m, node) in nodes.iter().enumerate() {
        push_node(clauses, q, n, f, m as u32, *node)?;
    }
    Ok(())
}

/// Appends the clauses of all nodes in the first frames.
pub fn push_frames(
    clauses: &mut Clauses,
    q: Query,
    nodes: &[Node],
    frames: u32,
) -> Result<(), Memory>
    requires operands { AreNodes nodes.now }
    requires fits { frames * length nodes.now < 2 ^ 31 }
    ensures { OnOk result (clauses.new ≡ clauses.old ++
        map ordered (frame_rows nodes.now q frames)) }
{
    for f in 0..frames {
        push_frame(clauses, q, nodes, f)?;
    }
    Ok(())
}

/// Appends the clauses that the outputs agree in frame f.
fn push_agreement(clauses: &mut Clauses, n: u32, outputs: &[Output], f: u32) -> Result<(), Memory>
    requires nodes { All (NamesNodes n) outputs.now }
    requires fits { f * n + n < 2 ^ 31 }
    ensures { OnOk result (clauses.new ≡ clauses.old ++
        map ordered (equal_rows (f * n) outputs.now)) }
{
    for output in outputs {
        push_same(
            clauses,
            literal(f * n, output.gold),
            literal(f * n, output.gate),
        )?;
    }
    Ok(())
}

/// Appends the clauses that the outputs agree in the first frames.
pub fn push_agreements(
    clauses: &mut Clauses,
    n: u32,
    outputs: &[Output],
    frames: u32,
) -> Result<(), Memory>
    requires nodes { All (NamesNodes n) outputs.now }
    requires fits { frames * n < 2 ^ 31 }
    ensures { OnOk result (clauses.new ≡ clauses.old ++
        map ordered (agreement_rows n outputs.now frames)) }
{
    for f in 0..frames {
        push_agreement(clauses, n, outputs, f)?;
    }
    Ok(())
}

/// Appends the clauses that say which outputs differ in the last frame.
pub fn push_differences(
    clauses: &mut Clauses,
    n: u32,
    outputs: &[Output],
    last: u32,
    frames: u32,
) -> Result<(), Memory>
    requires nodes { All (NamesNodes n) outputs.now }
    requires last { last * n + n < 2 ^ 31 }
    requires fits { frames * n + length outputs.now < 2 ^ 31 }
    ensures { OnOk result (clauses.new ≡ clauses.old ++
        map ordered (difference_rows n outputs.now last frames)) }
{
    for (i, output) in outputs.iter().enumerate() {
        let d = literal(frames * n, i as u32);
        let gold = literal(last * n, output.gold);
        let gate = literal(last * n, output.gate);
        push_differ(clauses, d, gold, gate)?;
    }
    Ok(())
}

/// Appends the clause that some output differs.
pub fn push_any(
    alloc: Global,
    clauses: &mut Clauses,
    before: u32,
    outputs: u32,
) -> Result<(), Memory>
    requires fits { before + outputs < 2 ^ 31 }
    ensures { OnOk result (clauses.new ≡ clauses.old ++
        ordered (output_literals before outputs) ∷ []) }
{
    let mut lits = Vec::with_capacity(alloc, outputs as usize)?;
    for i in 0..outputs {
        lits.push(literal(before, i))?;
    }
    clauses.push_lits(lits.as_slice())
}

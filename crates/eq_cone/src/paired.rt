//! Which nodes of two graphs are the own nodes of paired bits: a table that is made once, for all cuts.

ghost use Rattle.std.specs.Prelude.{◌≡◌, ◌+◌, ◌<◌, ◌≤◌, ◌^◌, None, IfOk, length, replicate};
ghost use Rattle.eq_cone.specs.Paired.{ArePaired, HaveOwnNodes};
ghost use Rattle.eq_cone.specs.inner.Marks.{AreMarks, Marked};

use eq_base::Memory;
use eq_bits::Graph;
use eq_part::{Places, Plan};
use std::alloc::Global;

/// A table of this size without pairs.
fn no_pairs(alloc: Global, size: usize) -> Result<Vec<Option<u32>>, Memory>
    ensures { IfOk result (λ paired. paired.items ≡ replicate size None) }
{
    vec![in alloc; None; size]
}

/// Writes the place of each bit at the bit's own node, where these nodes begin at a place of the table.
fn mark(paired: &mut [Option<u32>], from: usize, own: &[u32], bits: &[u32])
    requires marks { AreMarks (length paired.old) from own.now bits.now }
    requires from { from ≤ length paired.old }
    requires few { length bits.now < 2 ^ 32 }
    ensures { Marked from own.now bits.now (length bits.now) paired.old paired.new }
{
    for i in 0..bits.len() {
        paired[from + own[bits[i] as usize] as usize] = Some(i as u32);
    }
}

/// Writes the pairs of both sides into an empty table.
fn fill(paired: &mut [Option<u32>], gold: &Graph, gate: &Graph, plan: &Plan)
    requires gold { HaveOwnNodes gold.now }
    requires gate { HaveOwnNodes gate.now }
    requires gold_bits { length plan.now.gold.pairs ≡ length gold.now.bits }
    requires gate_bits { length plan.now.gate.pairs ≡ length gate.now.bits }
    requires few { length plan.now.pairs < 2 ^ 32 }
    requires empty { paired.old ≡
        replicate (length gold.now.nodes + length gate.now.nodes) None }
    ensures { ArePaired gold.now gate.now plan.now paired.new }
{
    mark(paired, 0, gold.bits.as_slice(), plan.gold.bits.as_slice());
    mark(
        paired,
        gold.nodes.len(),
        gate.bits.as_slice(),
        plan.gate.bits.as_slice(),
    );
}

/// For each node of both graphs, gold's first, the pair whose bit's own node it is.
pub fn paired_nodes(
    alloc: Global,
    gold: &Graph,
    gate: &Graph,
    plan: &Plan,
) -> Result<Places, Memory>
    requires gold { HaveOwnNodes gold.now }
    requires gate { HaveOwnNodes gate.now }
    requires gold_bits { length plan.now.gold.pairs ≡ length gold.now.bits }
    requires gate_bits { length plan.now.gate.pairs ≡ length gate.now.bits }
    requires few_pairs { length plan.now.pairs < 2 ^ 32 }
    requires few_nodes { length gold.now.nodes + length gate.now.nodes < 2 ^ 32 }
    ensures { IfOk result (λ paired. ArePaired gold.now gate.now plan.now paired) }
{
    let mut paired = no_pairs(alloc, gold.nodes.len() + gate.nodes.len())?;
    fill(&mut paired, gold, gate, plan);
    Ok(Places::from_vec(paired))
}

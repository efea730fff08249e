//! The nodes at which a cone begins: those of a partition's outputs.

ghost use Rattle.std.specs.Prelude.{◌≡◌, ◌+◌, ◌<◌, [], ◌∷◌, OnOk, IfOk, length};
ghost use Rattle.eq_cone.specs.Paired.{own_in_gate, own_in_gold};
ghost use Rattle.eq_cone.specs.inner.Cones.{Reached};
ghost use Rattle.eq_cone.specs.inner.Roots.{AreGraphs, HasPositions};
ghost use Rattle.eq_cone.specs.inner.Parted.{AreRoots};

use crate::numbers::Numbers;
use eq_base::Memory;
use eq_bits::Graph;
use eq_part::Plan;
use std::alloc::Global;

/// Both graphs and the plan of their comparison.
#[derive(Drop)]
pub struct Graphs<'a> {
    pub gold: &'a Graph,
    pub gate: &'a Graph,
    pub plan: &'a Plan,
}

impl<'a> Graphs<'a> {
    /// The own node of a pair's bit of gold.
    pub fn gold_node(&self, pair: u32) -> u32
        requires graphs { AreGraphs self.now }
        requires pair { pair < length self.now.plan.now.pairs }
        ensures { result ≡ own_in_gold self.now.gold.now self.now.plan.now pair }
    {
        let bit = self.plan.gold.bits.as_slice()[pair as usize];
        self.gold.bits.as_slice()[bit as usize]
    }

    /// The own node of a pair's bit of gate, in the row of both graphs' nodes.
    pub fn gate_node(&self, pair: u32) -> u32
        requires graphs { AreGraphs self.now }
        requires pair { pair < length self.now.plan.now.pairs }
        ensures { result ≡ length self.now.gold.now.nodes
            + own_in_gate self.now.gate.now self.now.plan.now pair }
    {
        let bit = self.plan.gate.bits.as_slice()[pair as usize];
        self.gold.nodes.len() as u32 + self.gate.bits.as_slice()[bit as usize]
    }
}

/// Appends the nodes of a pair.
fn begin(graphs: &Graphs<'_>, pair: u32, roots: &mut Numbers) -> Result<(), Memory>
    requires graphs { AreGraphs graphs.now }
    requires pair { pair < length graphs.now.plan.now.pairs }
    ensures { OnOk result (Reached roots.old roots.new
        (own_in_gold graphs.now.gold.now graphs.now.plan.now pair
        ∷ (length graphs.now.gold.now.nodes
        + own_in_gate graphs.now.gate.now graphs.now.plan.now pair) ∷ [])) }
{
    roots.insert(graphs.gold_node(pair))?;
    roots.insert(graphs.gate_node(pair))
}

/// The nodes of the pairs at these positions.
pub fn roots(alloc: Global, graphs: &Graphs<'_>, positions: &[u32]) -> Result<Numbers, Memory>
    requires graphs { AreGraphs graphs.now }
    requires positions { HasPositions graphs.now positions.now }
    ensures { IfOk result (λ roots. AreRoots (length graphs.now.gold.now.nodes)
        (own_in_gold graphs.now.gold.now graphs.now.plan.now)
        (own_in_gate graphs.now.gate.now graphs.now.plan.now)
        positions.now (length positions.now) roots) }
{
    let mut roots = Numbers::new(alloc);
    for place in 0..positions.len() {
        begin(graphs, positions[place], &mut roots)?;
    }
    Ok(roots)
}

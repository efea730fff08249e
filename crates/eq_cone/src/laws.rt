//! Laws of graphs and plans, over the definitions alone.

ghost use Rattle.std.specs.Prelude.{◌≡◌, ◌+◌, ◌<◌, ◌^◌, length};
ghost use Rattle.eq_bits.specs.declared.node.Graph.{Graph};
ghost use Rattle.eq_net.specs.declared.net.Net.{Net};
ghost use Rattle.eq_net.specs.Whole.{parts_of};
ghost use Rattle.eq_part.specs.declared.plan.Plan.{Plan};
ghost use Rattle.eq_part.specs.Plans.{IsPlanOf};
ghost use Rattle.eq_cone.specs.Cut.{IsGraphOfNet};
ghost use Rattle.eq_cone.specs.Paired.{HaveOwnNodes};

/// What `paired_nodes` asks holds of the graphs of two netlists and a plan of these. Proved in `proofs/Fitting.antt`.
pub fn tables_fit()
    ensures own_nodes { (net : Net) (g : Graph) → IsGraphOfNet net g → HaveOwnNodes g }
    ensures gold_bits { (gold gate : Net) (g : Graph) (plan : Plan) → IsGraphOfNet gold g →
        IsPlanOf (parts_of gold) (parts_of gate) plan → length plan.gold.pairs ≡ length g.bits }
    ensures gate_bits { (gold gate : Net) (g : Graph) (plan : Plan) → IsGraphOfNet gate g →
        IsPlanOf (parts_of gold) (parts_of gate) plan → length plan.gate.pairs ≡ length g.bits }
    ensures few_pairs { (gold gate : Net) (g : Graph) (plan : Plan) → IsGraphOfNet gold g →
        IsPlanOf (parts_of gold) (parts_of gate) plan → length plan.pairs < 2 ^ 32 }
    ensures few_nodes { (gold gate : Net) (g h : Graph) → IsGraphOfNet gold g →
        IsGraphOfNet gate h → length g.nodes + length h.nodes < 2 ^ 32 }
{}

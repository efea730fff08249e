//! Laws of the definitions: what matched pairs have, and that a plan of them covers the two designs.

ghost use Rattle.std.specs.Prelude.{◌≡◌, ◌<◌, ℕ, Bool, List, All, AllPairs, length, map, slice_index_or};
ghost use Rattle.eq_config.specs.declared.config.Config.{Config};
ghost use Rattle.eq_model.specs.Plan.{Covers};
ghost use Rattle.eq_net.specs.Net.{HasBit, IsNet, Parts, design_of};
ghost use Rattle.eq_match.specs.Classes.{Together, classes};
ghost use Rattle.eq_match.specs.Divided.{AreDivided};
ghost use Rattle.eq_match.specs.Groups.{is_held};
ghost use Rattle.eq_match.specs.Matched.{AreMatched};
ghost use Rattle.eq_match.specs.Pairs.{pair_at};
ghost use Rattle.eq_match.specs.declared.types.Pair.{Pair};
ghost use Rattle.eq_part.specs.Partitions.{ArePartitions, HaveGoldBits};
ghost use Rattle.eq_part.specs.Plans.{plan_of};
ghost use Rattle.eq_part.specs.Tables.{no_part};
ghost use Rattle.eq_part.specs.declared.plan.Plan.{Plan};
ghost use Rattle.eq_part.specs.declared.types.Partition.{Partition};

use eq_names::laws::{one_capture, one_filling};

/// Matched pairs have bits of gold, no two the same. Each has a bit of its own, and each bit costs, so there are few
/// (proofs/Few.antt).
pub fn matched_pairs_are_few()
    ensures { (gold gate : Parts) (pairs : List Pair) → IsNet gold →
        AreMatched gold gate pairs → HaveGoldBits gold pairs }
{}

/// Gold's bit of each matched pair is there by name.
pub fn gold_bits_are_there()
    ensures { (gold gate : Parts) (pairs : List Pair) → AreMatched gold gate pairs →
        (i : ℕ) → i < length pairs → HasBit gold.nets (pair_at pairs i).gold }
{}

/// A plan of matched pairs, of which partitions divide all but those of inputs, covers the two designs
/// (proofs/Covering.antt).
pub fn plans_cover()
    ensures { (gold gate : Parts) (plan : Plan) (together : Together) →
        AreMatched gold gate plan.pairs →
        AreDivided (length plan.pairs) (is_held plan.pairs) together
        (map (λ p. p.outputs) plan.parts) →
        Covers (design_of gold) (design_of gate) (plan_of gold gate plan) }
{}

/// Classes list their positions in order, each once, and so do partitions that are classes (proofs/Ordered.antt).
pub fn outputs_stand_in_order()
    ensures lists { (n : ℕ) (held : ℕ → Bool) (together : Together) →
        All (AllPairs (λ i j. i < j)) (classes n held together) }
    ensures outputs { (n : ℕ) (held : ℕ → Bool) (together : Together) (parts : List Partition) →
        map (λ p. p.outputs) parts ≡ classes n held together →
        (q : ℕ) → AllPairs (λ i j. i < j) (slice_index_or parts q no_part).outputs }
{}

/// A configuration makes one list of outputs of partitions (proofs/OneList.antt).
pub fn one_list_of_outputs()
    ensures { (gold : Parts) (pairs : List Pair) (groups : List (List ℕ)) (c : Config)
        (ps qs : List Partition) → ArePartitions gold pairs groups c ps →
        ArePartitions gold pairs groups c qs →
        map (λ p. p.outputs) ps ≡ map (λ p. p.outputs) qs }
{
    one_capture();
    one_filling();
}

/// A configuration makes one list of partitions (proofs/OneName.antt).
pub fn one_list_of_partitions()
    ensures { (gold : Parts) (pairs : List Pair) (groups : List (List ℕ)) (c : Config)
        (ps qs : List Partition) → ArePartitions gold pairs groups c ps →
        ArePartitions gold pairs groups c qs → ps ≡ qs }
{
    one_capture();
    one_filling();
}

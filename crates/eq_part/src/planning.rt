//! The plan that a configuration makes of two netlists.

ghost use Rattle.std.specs.Prelude.{◌≡◌, ◌<◌, ◌≤◌, ◌^◌, ℕ, All, IfOk, IsErrOf, OnOk, length, map, slice_index_or};
ghost use Rattle.eq_config.specs.Configs.{IsConfig};
ghost use Rattle.eq_match.specs.Divided.{AreApart};
ghost use Rattle.eq_match.specs.Matched.{AreMatched};
ghost use Rattle.eq_match.specs.Pairs.{ArePairs, pair_at};
ghost use Rattle.eq_match.specs.Seen.{HaveSamePorts};
ghost use Rattle.eq_names.specs.declared.BitName.{BitName};
ghost use Rattle.eq_net.specs.Net.{HasBit, bits_of, number_of};
ghost use Rattle.eq_net.specs.Whole.{parts_of};
ghost use Rattle.eq_part.specs.Clashes.{AreNamedApart, ClashAt};
ghost use Rattle.eq_part.specs.Partitions.{ArePartitions};
ghost use Rattle.eq_part.specs.Plans.{IsPlanOf};
ghost use Rattle.eq_part.specs.Refusals.{MakesSameName, MakesTooMany};
ghost use Rattle.eq_part.specs.inner.Planning.{AreClasses};
ghost use Rattle.eq_part.specs.inner.Tabling.{AreOnceBelow};

use crate::clashes::first_clash;
use crate::dividing::divide;
use crate::laws::{matched_pairs_are_few, outputs_stand_in_order, plans_cover};
use crate::limits::MOST_PARTITIONS;
use crate::plan::{PairedBits, Plan};
use crate::tables::{gate_names, gold_names, numbers, owners, paired_bits};
use crate::types::{Partition, Partitions, PlanErr};
use eq_base::Memory;
use eq_config::Config;
use eq_match::laws::{classes_divide, pairs_are_matched, templates_fit};
use eq_match::{Groups, Pair, Pairs};
use eq_names::BitName;
use eq_net::Net;
use std::alloc::Global;

/// The paired bits of a side, by name.
fn side(alloc: Global, net: &Net, names: &[BitName]) -> Result<PairedBits, Memory>
    requires names { All (HasBit net.now.nets) names.now }
    requires once { AreOnceBelow (bits_of net.now.nets) (map (number_of net.now.nets) names.now) }
    requires few { length names.now < 2 ^ 31 }
    ensures bits { IfOk result (λ t. t.bits ≡ map (number_of net.now.nets) names.now) }
    ensures table { IfOk result (λ t. length t.pairs ≡ bits_of net.now.nets) }
{
    let bits = numbers(alloc, net, names)?;
    paired_bits(alloc, bits, net.bits() as usize)
}

/// The plan of matched pairs, and of partitions that divide them.
fn plan(
    alloc: Global,
    gold: &Net,
    gate: &Net,
    pairs: Pairs,
    parts: Partitions,
) -> Result<Plan, Memory>
    requires matched { AreMatched (parts_of gold.now) (parts_of gate.now) pairs }
    requires classes { AreClasses pairs parts }
    requires few { length parts < 2 ^ 31 }
    ensures pairs { IfOk result (λ plan. plan.pairs ≡ pairs) }
    ensures parts { IfOk result (λ plan. plan.parts ≡ parts) }
    ensures plan { IfOk result (IsPlanOf (parts_of gold.now) (parts_of gate.now)) }
{
    matched_pairs_are_few();
    plans_cover();
    classes_divide();
    outputs_stand_in_order();
    let in_gold = gold_names(alloc, pairs.as_slice())?;
    let in_gate = gate_names(alloc, pairs.as_slice())?;
    let gold = side(alloc, gold, in_gold.as_slice())?;
    let gate = side(alloc, gate, in_gate.as_slice())?;
    let owners = owners(alloc, pairs.as_slice(), parts.as_slice())?;
    Ok(Plan {
        pairs,
        parts,
        gold,
        gate,
        owners,
    })
}

/// Gold's bit at the first output of a partition.
fn first_bit(pairs: &[Pair], part: &Partition) -> BitName
    requires some { 0 < length part.now.outputs }
    requires there { All (λ i. i < length pairs.now) part.now.outputs }
    ensures { result ≡ (pair_at pairs.now (slice_index_or part.now.outputs 0 0)).gold }
{
    let outputs = part.outputs.as_slice();
    pairs[outputs[0] as usize].gold
}

/// Whether there are no more partitions than may be, and no two of one name.
fn check(alloc: Global, pairs: &Pairs, parts: &Partitions) -> Result<(), PlanErr>
    requires classes { AreClasses pairs.now parts.now }
    requires few { length pairs.now < 2 ^ 31 }
    ensures few { OnOk result (length parts.now ≤ MOST_PARTITIONS) }
    ensures apart { OnOk result (AreNamedApart parts.now) }
    ensures too_many { (n : ℕ) → IsErrOf result (PlanErr.TooMany n) →
        (n ≡ length parts.now) × (MOST_PARTITIONS < n) }
    ensures same_name { (first second : BitName) → IsErrOf result (PlanErr.SameName first second) →
        (length parts.now ≤ MOST_PARTITIONS) × ClashAt pairs.now parts.now first second }
{
    classes_divide();
    let count = parts.len();
    if count > MOST_PARTITIONS as usize {
        return Err(PlanErr::TooMany {
            number: count as u32,
        });
    }
    let parts = parts.as_slice();
    if let Some((p, q)) = first_clash(alloc, parts)? {
        return Err(PlanErr::SameName {
            first: first_bit(pairs.as_slice(), &parts[p as usize]),
            second: first_bit(pairs.as_slice(), &parts[q as usize]),
        });
    }
    Ok(())
}

/// The plan that a configuration makes of the pairs and groups of two netlists. On a refusal pairs and groups are dropped.
pub fn partitions(
    alloc: Global,
    gold: &Net,
    gate: &Net,
    p: Pairs,
    g: Groups,
    c: &Config,
) -> Result<Plan, PlanErr>
    requires ports { HaveSamePorts (parts_of gold.now) (parts_of gate.now) }
    requires config { IsConfig c.now }
    requires pairs { ArePairs (parts_of gold.now) (parts_of gate.now) c.now p }
    requires groups { AreApart p g }
    ensures pairs { IfOk result (λ plan. plan.pairs ≡ p) }
    ensures ok { IfOk result (λ plan. ArePartitions (parts_of gold.now) p g c.now plan.parts) }
    ensures few { IfOk result (λ plan. length plan.parts ≤ MOST_PARTITIONS) }
    ensures apart { IfOk result (λ plan. AreNamedApart plan.parts) }
    ensures plan { IfOk result (IsPlanOf (parts_of gold.now) (parts_of gate.now)) }
    ensures too_many { (n : ℕ) → IsErrOf result (PlanErr.TooMany n) →
        MakesTooMany (parts_of gold.now) p g c.now n }
    ensures same_name { (first second : BitName) → IsErrOf result (PlanErr.SameName first second) →
        MakesSameName (parts_of gold.now) p g c.now first second }
{
    pairs_are_matched();
    templates_fit();
    matched_pairs_are_few();
    let parts = divide(alloc, gold, &p, &g, c)?;
    if let Err(fault) = check(alloc, &p, &parts) {
        return Err(fault);
    }
    Ok(plan(alloc, gold, gate, p, parts)?)
}

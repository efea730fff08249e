//! Laws of the definitions, about all pairs and groups that a configuration says.

ghost use Rattle.std.specs.Prelude.{◌≡◌, ℕ, Bool, List};
ghost use Rattle.eq_config.specs.Configs.{IsConfig};
ghost use Rattle.eq_config.specs.declared.config.Config.{Config};
ghost use Rattle.eq_match.specs.Classes.{classes};
ghost use Rattle.eq_match.specs.Divided.{AreDivided};
ghost use Rattle.eq_match.specs.Fitting.{HasFittingTemplates};
ghost use Rattle.eq_match.specs.Groups.{AreGroups};
ghost use Rattle.eq_match.specs.Leaders.{one_leader};
ghost use Rattle.eq_match.specs.Matched.{AreMatched};
ghost use Rattle.eq_match.specs.Pairs.{ArePairs};
ghost use Rattle.eq_match.specs.Seen.{HaveSamePorts};
ghost use Rattle.eq_match.specs.declared.types.Pair.{Pair};
ghost use Rattle.eq_net.specs.Net.{IsNet, Parts};
ghost use Rattle.eq_net.specs.Net.{Parts};

use eq_names::laws::{
    no_faulty_template, one_capture, one_filling, one_number_of_wilds, template_or_fault,
};

/// Pairs of two netlists with the same ports are one to one, in the order of gold's bits, and pair nets whole; each port bit
/// of either side is paired with that of its name and place, by a plain pair, and inputs are marked (proofs/PairLaws.antt).
pub fn pairs_are_matched()
    ensures { (gold gate : Parts) (c : Config) (pairs : List Pair) → IsNet gold → IsNet gate →
        HaveSamePorts gold gate → ArePairs gold gate c pairs → AreMatched gold gate pairs }
{}

/// A configuration says one list of pairs (proofs/OnePairing.antt).
pub fn one_list_of_pairs()
    ensures { (gold gate : Parts) (c : Config) (ps qs : List Pair) → IsNet gold → IsNet gate →
        ArePairs gold gate c ps → ArePairs gold gate c qs → ps ≡ qs }
{
    one_capture();
    one_filling();
}

/// The templates of a configuration fit their patterns (proofs/FittingTemplates.antt).
pub fn templates_fit()
    ensures { (c : Config) → IsConfig c → HasFittingTemplates c }
{
    one_number_of_wilds();
    template_or_fault();
    no_faulty_template();
}

/// A configuration makes one list of groups (proofs/GroupLines.antt).
pub fn one_list_of_groups()
    ensures { (gold : Parts) (pairs : List Pair) (c : Config) (g h : List (List ℕ)) →
        AreGroups gold pairs c g → AreGroups gold pairs c h → g ≡ h }
{}

/// The classes by leaders divide what is held (proofs/Divisions.antt).
pub fn classes_divide()
    ensures { (n : ℕ) (held : ℕ → Bool) (leaders : List ℕ) →
        AreDivided n held (one_leader leaders) (classes n held (one_leader leaders)) }
{}

//! What the definitions say of small netlists. The checker computes each.

ghost use Rattle.std.specs.Prelude.{◌≡◌, [], ◌∷◌, None, Some, false, true};
ghost use Rattle.eq_match.specs.NetPairs.{AreTwins, paired};
ghost use Rattle.eq_match.specs.Pairs.{bit, bits_of_nets};
ghost use Rattle.eq_match.specs.Samples.{inverted, plain, sample, straight, two_pairs};
ghost use Rattle.eq_match.specs.Seen.{IsSeen};
ghost use Rattle.eq_match.specs.declared.types.Pair.{Pair};

/// A new pair takes both nets away from the pairs that held them, and leaves the others.
pub fn a_net_leaves_its_pair()
    ensures new { paired straight 2 (inverted 3) 2 ≡ Some (inverted 3) }
    ensures taken { paired straight 2 (inverted 3) 3 ≡ None }
    ensures others { (paired straight 2 (inverted 3) 1 ≡ Some (plain 1)) ×
        (paired straight 2 (inverted 3) 4 ≡ Some (plain 4)) }
{}

/// Lines see a net that is driven, inside; not a port, and not a net with a bit that has no driver.
pub fn seen_by_lines()
    ensures seen { IsSeen sample 2 }
    ensures ports { (¬ IsSeen sample 0) × (¬ IsSeen sample 1) }
    ensures undriven { ¬ IsSeen sample 3 }
    ensures automatic { IsSeen sample 4 }
    ensures none { ¬ IsSeen sample 5 }
{}

/// Before any line: ports are paired by name, and a net inside; not a net with an undriven bit, nor one that a tool named.
pub fn paired_by_name()
    ensures ports { (AreTwins sample sample 0 0) × (AreTwins sample sample 1 1) }
    ensures inside { AreTwins sample sample 2 2 }
    ensures undriven { ¬ AreTwins sample sample 3 3 }
    ensures automatic { ¬ AreTwins sample sample 4 4 }
    ensures apart { ¬ AreTwins sample sample 2 3 }
{}

/// Nets bit by bit, in the order of gold's bits.
pub fn spelled_out()
    ensures { bits_of_nets sample two_pairs 5 ≡
        record { gold = bit 0 0; gate = bit 1 0; input = true; inverted = false } ∷
        record { gold = bit 0 1; gate = bit 1 1; input = true; inverted = false } ∷
        record { gold = bit 2 0; gate = bit 3 0; input = false; inverted = true } ∷
        record { gold = bit 2 1; gate = bit 3 1; input = false; inverted = true } ∷ [] }
{}

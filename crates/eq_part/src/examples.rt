//! What the definitions say of small lists of pairs. The checker computes each.

ghost use Rattle.std.specs.Prelude.{◌≡◌, [], ◌∷◌, None, Some, false, true};
ghost use Rattle.eq_part.specs.Partitions.{are_several, renamed, union};
ghost use Rattle.eq_part.specs.Reach.{AreOfOne};
ghost use Rattle.eq_part.specs.Samples.{begun, both_marked, first_marked, four, named};

/// Partitions begin as groups without names, and a pair of inputs stands alone.
pub fn begun_as_groups()
    ensures together { (begun.together 1 2 ≡ true) × (begun.together 2 1 ≡ true) }
    ensures apart { (begun.together 1 3 ≡ false) × (begun.together 0 1 ≡ false) }
    ensures itself { (begun.together 0 0 ≡ true) × (begun.together 3 3 ≡ true) }
    ensures unnamed { begun.called 1 ≡ None }
{}

/// A union of two partitions loses its name; one alone keeps it, also where an input is marked besides.
pub fn united_or_alone()
    ensures several { are_several four both_marked named.together ≡ true }
    ensures one { are_several four first_marked named.together ≡ false }
    ensures united { (union four both_marked named).together 1 3 ≡ true }
    ensures default { (union four both_marked named).called 1 ≡ None }
    ensures kept { (union four first_marked named).called 1 ≡ Some (1 ∷ []) }
    ensures beside { (union four first_marked named).called 3 ≡ Some (3 ∷ []) }
{}

/// An empty text leaves the name, and another takes its place.
pub fn named_by_a_text()
    ensures none { renamed None [] ≡ None }
    ensures left { renamed (Some (1 ∷ [])) [] ≡ Some (1 ∷ []) }
    ensures given { renamed (Some (1 ∷ [])) (2 ∷ []) ≡ Some (2 ∷ []) }
{}

/// Positions of one partition: an input stands in none, and no position behind the last does.
pub fn of_one_partition()
    ensures one { AreOfOne four begun.together 1 2 }
    ensures other { ¬ AreOfOne four begun.together 1 3 }
    ensures input { ¬ AreOfOne four begun.together 0 0 }
    ensures behind { ¬ AreOfOne four begun.together 4 4 }
{}

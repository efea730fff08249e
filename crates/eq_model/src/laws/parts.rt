//! The first difference of a partition, the runs of a part, and the part into which two graphs are copied.
ghost use Rattle.std.specs.Prelude.{ℕ, suc, ◌+◌, ◌<◌, ◌≤◌, ◌↔◌, Bool};
ghost use Rattle.eq_model.specs.System.{System, Values, IsSystem, IsLoopFree, IsInitial, nothing};
ghost use Rattle.eq_model.specs.Plan.{Plan, IsOneToOne};
ghost use Rattle.eq_model.specs.Cut.{CutRun, IsFromInitial, Differ, Base, Never};
ghost use Rattle.eq_model.specs.Part.{Part, IsPart, PartRun, HasOnePartRun, PartDiffer, PartBase};
ghost use Rattle.eq_model.specs.Denotes.{Denotes};
ghost use Rattle.eq_model.specs.Copying.{Copying};
ghost use Rattle.eq_model.specs.Graph.{IsGraphOf, on_nodes};

/// A partition never differs exactly where no Base query holds, at any k from 1. Where Base holds at k and at no lower one,
/// its run is a shortest one that differs: no run from the initial values differs in a cycle before the k-th. So it is of
/// a part. At 0 no Base query holds.
pub fn first_difference()
    ensures never { (gold gate : System) (p : Plan) (inside : ℕ → Bool) →
        (((k : ℕ) → 1 ≤ k → Base gold gate p inside k → ⊥) ↔ Never gold gate p inside) }
    ensures first { (gold gate : System) (p : Plan) (inside : ℕ → Bool) (k : ℕ) →
        ((j : ℕ) → 1 ≤ j → j < k → Base gold gate p inside j → ⊥) → (n : ℕ) (v w : ℕ → Values) →
        CutRun gold gate p inside n v w → IsFromInitial gold gate p inside v w → (c : ℕ) → c < n →
        suc c < k → Differ p inside (v c) (w c) → ⊥ }
    ensures first_of_part { (t : Part) (k : ℕ) → ((j : ℕ) → 1 ≤ j → j < k → PartBase t j → ⊥) →
        (given : ℕ → ℕ → Bool) (n : ℕ) (x : ℕ → Values) → PartRun t given n x →
        IsInitial t.system nothing (x 0) → (c : ℕ) → c < n → suc c < k → PartDiffer t (x c) → ⊥ }
    ensures zero { (gold gate : System) (p : Plan) (inside : ℕ → Bool) → Base gold gate p inside 0 →
        ⊥ }
    ensures zero_of_part { (t : Part) → PartBase t 0 → ⊥ }
{}

/// A part has exactly one run for given inputs and first values of the registers. The first cycles of a run are a run, and
/// so is each window of one.
pub fn part_runs()
    ensures one { (t : Part) → IsPart t → (given : ℕ → ℕ → Bool) (state : Values) (n : ℕ) →
        HasOnePartRun t given state n }
    ensures front { (t : Part) (given : ℕ → ℕ → Bool) (n : ℕ) (x : ℕ → Values) →
        PartRun t given n x → (m : ℕ) → m ≤ n → PartRun t given m x }
    ensures window { (t : Part) (given : ℕ → ℕ → Bool) (n : ℕ) (x : ℕ → Values) →
        PartRun t given n x → (d m : ℕ) → d + m ≤ n →
        PartRun t (λ c. given (d + c)) m (λ c. x (d + c)) }
{}

/// A part into which two graphs are copied node for node denotes the partition of the systems that they follow.
pub fn copied_graphs()
    ensures { (gold gate gold_graph gate_graph : System) (own_gold own_gate : ℕ → ℕ) →
        IsGraphOf gold gold_graph own_gold → IsGraphOf gate gate_graph own_gate → IsSystem gold →
        IsSystem gate → IsSystem gold_graph → IsSystem gate_graph → IsLoopFree gold_graph →
        IsLoopFree gate_graph → (p : Plan) (inside : ℕ → Bool) → IsOneToOne gold gate p →
        (t : Part) → IsPart t →
        Copying gold_graph gate_graph (on_nodes own_gold own_gate p) inside t →
        Denotes gold gate p inside t }
{}

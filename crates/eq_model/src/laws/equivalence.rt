//! What refutes that two designs are equivalent, and how equivalences join.
ghost use Rattle.std.specs.Prelude.{◌≡◌, ◌≢◌, ℕ, ◌<◌};
ghost use Rattle.eq_model.specs.System.{Values};
ghost use Rattle.eq_model.specs.Nets.{is_output, IsPort};
ghost use Rattle.eq_model.specs.Run.{Design, IsDesign, Given, Run, HasOneRun, Equivalent, key, dir};

/// Each of these refutes an equivalence: two runs on the same inputs in which outputs of one name and place differ in some
/// cycle, a port that one side lacks, a side that is no design, and a side without exactly one run.
pub fn equivalence_refuted()
    ensures outputs { (gold gate : Design) (given : Given) (n : ℕ) (v w : ℕ → Values) →
        Run gold given n v → Run gate given n w → (c a b : ℕ) → c < n → a < gold.bits →
        b < gate.bits → dir gold a ≡ is_output → dir gate b ≡ is_output → key gold a ≡ key gate b →
        v c a ≢ w c b → Equivalent gold gate → ⊥ }
    ensures gold_port { (gold gate : Design) (a : ℕ) → a < gold.bits → IsPort (dir gold a) →
        ((b : ℕ) → b < gate.bits → dir gate b ≡ dir gold a → key gate b ≡ key gold a → ⊥) →
        Equivalent gold gate → ⊥ }
    ensures gate_port { (gold gate : Design) (b : ℕ) → b < gate.bits → IsPort (dir gate b) →
        ((a : ℕ) → a < gold.bits → dir gold a ≡ dir gate b → key gold a ≡ key gate b → ⊥) →
        Equivalent gold gate → ⊥ }
    ensures gold_design { (gold gate : Design) → (IsDesign gold → ⊥) → Equivalent gold gate → ⊥ }
    ensures gate_design { (gold gate : Design) → (IsDesign gate → ⊥) → Equivalent gold gate → ⊥ }
    ensures gold_run { (gold gate : Design) (given : Given) (n : ℕ) → (HasOneRun gold given n → ⊥) →
        Equivalent gold gate → ⊥ }
    ensures gate_run { (gold gate : Design) (given : Given) (n : ℕ) → (HasOneRun gate given n → ⊥) →
        Equivalent gold gate → ⊥ }
{}

/// Equivalence may be turned round, and two that share a design join to one.
pub fn equivalence_joins()
    ensures symmetric { (gold gate : Design) → Equivalent gold gate → Equivalent gate gold }
    ensures transitive { (d e f : Design) → Equivalent d e → Equivalent e f → Equivalent d f }
{}

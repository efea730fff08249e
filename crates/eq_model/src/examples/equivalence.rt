//! Designs that aren't equivalent, though a weaker notion would take them to be.
ghost use Rattle.std.specs.Prelude.{◌≡◌, ℕ, ◌<◌, Bool};
ghost use Rattle.eq_model.specs.System.{Values, IsLoopFree};
ghost use Rattle.eq_model.specs.Nets.{Key};
ghost use Rattle.eq_model.specs.Run.{IsDesign, Run, SameOutputs, Equivalent};
ghost use Rattle.eq_model.specs.Table.{design, EquivalentTables};
ghost use Rattle.eq_model.specs.Examples.{silence, gated_silence};
ghost use Rattle.eq_model.specs.EquivalenceExamples.{inner_silence, own_negation, change, ring_inside, differing, two_silenced, collided};

/// The one output is 0 on both sides, but x is an input of one side alone.
pub fn ports_that_differ()
    ensures same { SameOutputs (design gated_silence) (design inner_silence) }
    ensures gold { EquivalentTables gated_silence inner_silence → ⊥ }
    ensures gate { EquivalentTables inner_silence gated_silence → ⊥ }
{}

/// A bit that is its own negation has no value, so its design has no run, and isn't even equivalent to itself.
pub fn bit_that_negates_itself()
    ensures { EquivalentTables own_negation own_negation → ⊥ }
{}

/// The output tells that the input changed. While the inputs stay it is 0; for an input of 0, 1 it isn't.
pub fn output_of_a_change()
    ensures steady { (fixed : Key → Bool) (n : ℕ) (v w : ℕ → Values) →
        Run (design change) (λ c. fixed) n v → Run (design gated_silence) (λ c. fixed) n w →
        (c : ℕ) → c < n → v c 1 ≡ w c 1 }
    ensures unequal { EquivalentTables change gated_silence → ⊥ }
{}

/// A ring of wires that no output reads has two values, so its design hasn't just one run, though the output is 0 in each.
pub fn ring_beside_an_output()
    ensures looped { IsLoopFree (design ring_inside).system → ⊥ }
    ensures same { SameOutputs (design ring_inside) (design silence) }
    ensures gold { EquivalentTables ring_inside silence → ⊥ }
    ensures gate { EquivalentTables silence ring_inside → ⊥ }
{}

/// Where two inputs have one name they always have one value, and `y = a ^ b` can't be told from `y = 0`. Such a system is
/// no design, and so it is equivalent to nothing.
pub fn inputs_of_one_name()
    ensures same { SameOutputs (collided differing) (collided two_silenced) }
    ensures refused { IsDesign (collided differing) → ⊥ }
    ensures unequal { Equivalent (collided differing) (collided two_silenced) → ⊥ }
{}

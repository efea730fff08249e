//! Plans that cover two designs, and plans that don't.
ghost use Rattle.eq_model.specs.Run.{Equivalent};
ghost use Rattle.eq_model.specs.Plan.{Covers};
ghost use Rattle.eq_model.specs.Table.{design, CoversTables};
ghost use Rattle.eq_model.specs.Examples.{conjunction, counter, silence, output_only};
ghost use Rattle.eq_model.specs.PlanExamples.{empty_partition, input_held, no_pair_held, output_unpaired, output_inverted, inputs_unmarked, inputs_crossed, gold_twice, gate_twice, bits_beyond, silent_output, input_first, output_first, turned};

/// A plan with an empty partition, with an input or with no pair in a partition, with a port that isn't paired, is an
/// inverted pair or stands with a port of another name, with an input that isn't marked, with a bit in two pairs or with a
/// bit that isn't there doesn't cover.
pub fn plans_that_do_not_cover()
    ensures empty { CoversTables conjunction conjunction empty_partition → ⊥ }
    ensures input { CoversTables conjunction conjunction input_held → ⊥ }
    ensures no_pair { CoversTables conjunction conjunction no_pair_held → ⊥ }
    ensures unpaired { CoversTables conjunction conjunction output_unpaired → ⊥ }
    ensures inverted { CoversTables conjunction conjunction output_inverted → ⊥ }
    ensures crossed { CoversTables conjunction conjunction inputs_crossed → ⊥ }
    ensures unmarked { CoversTables conjunction conjunction inputs_unmarked → ⊥ }
    ensures gold_twice { CoversTables conjunction conjunction gold_twice → ⊥ }
    ensures gate_twice { CoversTables conjunction conjunction gate_twice → ⊥ }
    ensures beyond { CoversTables conjunction conjunction bits_beyond → ⊥ }
{}

/// Inner bits may be left unpaired, on either side.
pub fn unpaired_inner_bits()
    ensures gold { CoversTables counter silence output_only }
    ensures gate { CoversTables silence counter silent_output }
{}

/// The ports of the two designs may stand in different orders.
pub fn ports_in_another_order()
    ensures covered { Covers (design input_first) output_first turned }
    ensures equal { Equivalent (design input_first) output_first }
{}

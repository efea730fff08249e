//! Small designs on which the definitions are tried, each with its answers. A design is a table of signals of one bit, and
//! stands in `specs/Examples.antt`.
//!
//! - here: whole comparisons, by composition and induction.
//! - `designs`: nets by position, what is a design, and what doesn't agree.
//! - `equivalence`: what isn't equivalent.
//! - `plans`: what covers and what doesn't.
//! - `parts`: what doesn't denote a partition, and the graphs of a system.

mod designs;
mod equivalence;
mod parts;
mod plans;

ghost use Rattle.std.specs.Prelude.{ℕ, ◌<◌, ◌≤◌};
ghost use Rattle.eq_model.specs.System.{Values, Reads, IsLoopFree, HasOneCycle, nothing};
ghost use Rattle.eq_model.specs.Agreement.{SameDesign};
ghost use Rattle.eq_model.specs.Kind.{fail, proved, deep};
ghost use Rattle.eq_model.specs.Table.{design, EquivalentTables, CoversTables, NeverDiffers, DiffersAfter, Answers, DenotesPartition};
ghost use Rattle.eq_model.specs.Examples.{conjunction, de_morgan, disjunction, ring, p_reads_q, q_reads_p, apart, doubled, reads_both, reads_inner, reads_inverted, inner_cut, inner_left_out, counter, silence, output_only, gated, gated_silence, ports_only, feedback, toggle, complement_toggle, complements, not_complements, output_part, register_part};

pub use designs::{nets_by_position, nets_of_a_design, nets_of_no_design, one_point_apart};
pub use equivalence::{
    bit_that_negates_itself, inputs_of_one_name, output_of_a_change, ports_that_differ,
    ring_beside_an_output,
};
pub use parts::{graph_with_a_shared_node, parts_that_do_not_denote};
pub use plans::{plans_that_do_not_cover, ports_in_another_order, unpaired_inner_bits};

/// `y = a & b` and `y = ~(~a | ~b)` agree and are equivalent; `y = a & b` and `y = a | b` are not.
pub fn two_gates()
    ensures agree { SameDesign (design conjunction) (design de_morgan) }
    ensures equal { EquivalentTables conjunction de_morgan }
    ensures unequal { EquivalentTables conjunction disjunction → ⊥ }
{}

/// `p = q, q = p` is a loop, and whatever is given, its cycle doesn't have just one solution.
pub fn ring_of_wires()
    ensures looped { IsLoopFree (design ring).system → ⊥ }
    ensures unsettled { (u : Values) → HasOneCycle (design ring).system nothing u → ⊥ }
{}

/// Gold's p reads q, and gate's q reads p. Each partition alone is equal, so the designs are equivalent. They don't agree.
pub fn crossed_reads()
    ensures crossed { Reads (design p_reads_q).system 1 2 × Reads (design q_reads_p).system 2 1 }
    ensures covered { CoversTables p_reads_q q_reads_p apart }
    ensures never { (q : ℕ) → q < 2 → NeverDiffers p_reads_q q_reads_p apart q }
    ensures equal { EquivalentTables p_reads_q q_reads_p }
    ensures disagree { SameDesign (design p_reads_q) (design q_reads_p) → ⊥ }
{}

/// A plan with a pair in two partitions doesn't cover.
pub fn pair_in_two_partitions()
    ensures { CoversTables p_reads_q q_reads_p doubled → ⊥ }
{}

/// A partition that fails, though the designs are equivalent: its inner cut leaves out that n is a.
pub fn inner_cut_fails()
    ensures covered { CoversTables reads_both reads_inner inner_cut }
    ensures fails { DiffersAfter reads_both reads_inner inner_cut 0 1 }
    ensures never { NeverDiffers reads_both reads_inner inner_cut 1 }
    ensures equal { EquivalentTables reads_both reads_inner }
{}

/// A plan with an inner pair in no partition: no partition ever differs, yet the designs aren't equivalent. It doesn't cover.
pub fn pair_left_out()
    ensures never { (q : ℕ) → q < 1 → NeverDiffers reads_inner reads_inverted inner_left_out q }
    ensures unequal { EquivalentTables reads_inner reads_inverted → ⊥ }
    ensures uncovered { CoversTables reads_inner reads_inverted inner_left_out → ⊥ }
{}

/// A counter against 0 differs first in cycle 3, and no depth below 3 sees it. Its registers read themselves, which is no loop.
pub fn late_difference()
    ensures acyclic { IsLoopFree (design counter).system }
    ensures fails { (depth : ℕ) → 3 ≤ depth → Answers counter silence output_only 0 depth (fail 3) }
    ensures unseen { Answers counter silence output_only 0 2 deep }
    ensures unequal { EquivalentTables counter silence → ⊥ }
{}

/// A register that is 0 for ever gates an input. The output never differs from 0, yet no depth shows it, since a step may
/// begin where the register is 1.
pub fn gated_register()
    ensures never { NeverDiffers gated gated_silence ports_only 0 }
    ensures unseen { (depth : ℕ) → Answers gated gated_silence ports_only 0 depth deep }
{}

/// Two registers in a feedback shift against themselves, with only the output paired: proved at k = 2, and not at 1, since
/// the output tells the registers only after two cycles.
pub fn feedback_register()
    ensures proves { (depth : ℕ) → 2 ≤ depth →
        Answers feedback feedback output_only 0 depth (proved 2) }
    ensures unseen { Answers feedback feedback output_only 0 1 deep }
{}

/// A register and its complement are an inverted pair. By a plain pair their partition fails at once.
pub fn inverted_pair()
    ensures covered { CoversTables toggle complement_toggle complements }
    ensures proves { (depth : ℕ) → 1 ≤ depth →
        Answers toggle complement_toggle complements 1 depth (proved 1) }
    ensures equal { EquivalentTables toggle complement_toggle }
    ensures plain { DiffersAfter toggle complement_toggle not_complements 1 1 }
{}

/// The parts of the two partitions. With the pair outside, gate's side reads the input through an inverter; with the pair
/// inside, gate's node of the output is behind one.
pub fn inverted_parts()
    ensures outside { DenotesPartition toggle complement_toggle complements 0 output_part }
    ensures inside { DenotesPartition toggle complement_toggle complements 1 register_part }
{}

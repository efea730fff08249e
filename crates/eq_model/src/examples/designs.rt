//! Nets, what a design asks of them, and designs that don't agree.
ghost use Rattle.std.specs.Prelude.{◌≡◌, true, false, [], ◌∷◌, Some, None};
ghost use Rattle.eq_model.specs.System.{undriven, equation, register};
ghost use Rattle.eq_model.specs.Nets.{inner, is_input, is_output, total_width, first_bit};
ghost use Rattle.eq_model.specs.Run.{IsDesign, key, dir, range, automatic};
ghost use Rattle.eq_model.specs.Agreement.{SameDesign};
ghost use Rattle.eq_model.specs.Table.{design};
ghost use Rattle.eq_model.specs.Examples.{conjunction};
ghost use Rattle.eq_model.specs.DesignExamples.{k_name, w_name, y_name, n_name, four_nets, without_n, two_of_y, inner_k, input_y, with_nets, headed, driven, both_high, one_high, never_high, never_high_of_a, renamed, ranged, turned_inside, made_up, turned_ports, clocked_by_a, copies_of_a, one_bit_more};

/// Nets of one, three, one and two bits: which net and place each bit has.
pub fn nets_by_position()
    ensures sizes { (total_width four_nets ≡ 7) × (first_bit four_nets 2 ≡ 4) }
    ensures first { key (with_nets four_nets headed None) 0 ≡ (k_name, 0) }
    ensures lowest { key (with_nets four_nets headed None) 1 ≡ (w_name, 0) }
    ensures highest { key (with_nets four_nets headed None) 3 ≡ (w_name, 2) }
    ensures last { key (with_nets four_nets headed None) 6 ≡ (n_name, 1) }
    ensures dirs { (dir (with_nets four_nets headed None) 3 ≡ is_input) ×
        (dir (with_nets four_nets headed None) 4 ≡ is_output) ×
        (dir (with_nets four_nets headed None) 5 ≡ inner) }
    ensures ranges { (range (with_nets four_nets headed None) 3 ≡ Some (3, 1)) ×
        (range (with_nets four_nets headed None) 4 ≡ None) ×
        (range (with_nets four_nets headed None) 5 ≡ Some (0, 1)) }
    ensures made_up { (automatic (with_nets four_nets headed None) 4 ≡ false) ×
        (automatic (with_nets four_nets headed None) 5 ≡ true) }
{}

/// These nets are a design's, in whatever order the header has the ports, with k as clock or with none.
pub fn nets_of_a_design()
    ensures clocked { IsDesign (with_nets four_nets headed (Some k_name)) }
    ensures unclocked { IsDesign (with_nets four_nets headed None) }
{}

/// Each of these is no design: a bit without a net, two nets of one name, an input that is no input port, an input port
/// without input, a port listed twice, a port left out, an inner net listed, and a clock that is an output, of three bits,
/// or no net.
pub fn nets_of_no_design()
    ensures widths { IsDesign (with_nets without_n headed None) → ⊥ }
    ensures names { IsDesign (with_nets two_of_y headed None) → ⊥ }
    ensures inputs { IsDesign (with_nets inner_k (w_name ∷ y_name ∷ []) None) → ⊥ }
    ensures driven_input { IsDesign (with_nets input_y headed None) → ⊥ }
    ensures twice { IsDesign (with_nets four_nets (y_name ∷ k_name ∷ w_name ∷ y_name ∷ []) None) →
        ⊥ }
    ensures left_out { IsDesign (with_nets four_nets (k_name ∷ w_name ∷ []) None) → ⊥ }
    ensures inner_listed { IsDesign (with_nets four_nets (y_name ∷ k_name ∷ w_name ∷ n_name ∷
        []) None) → ⊥ }
    ensures clock_is_output { IsDesign (with_nets four_nets headed (Some y_name)) → ⊥ }
    ensures clock_is_wide { IsDesign (with_nets four_nets headed (Some w_name)) → ⊥ }
    ensures clock_is_nowhere { IsDesign (with_nets four_nets headed (Some [])) → ⊥ }
{}

/// Designs that differ in one point alone don't agree: in the number of bits; in a driver's kind, initial value, reads or
/// value; in a net's name, range, direction or origin of its name; in the order of the ports, the clock and the copies.
pub fn one_point_apart()
    ensures bits { SameDesign (design conjunction) one_bit_more → ⊥ }
    ensures kind { SameDesign (driven undriven) (driven (equation never_high)) → ⊥ }
    ensures initial { SameDesign (driven (register false both_high))
        (driven (register true both_high)) → ⊥ }
    ensures reads { SameDesign (driven (equation never_high)) (driven (equation never_high_of_a)) →
        ⊥ }
    ensures value { SameDesign (driven (equation both_high)) (driven (equation one_high)) → ⊥ }
    ensures next_reads { SameDesign (driven (register false never_high))
        (driven (register false never_high_of_a)) → ⊥ }
    ensures next_value { SameDesign (driven (register false both_high))
        (driven (register false one_high)) → ⊥ }
    ensures name { SameDesign (design conjunction) renamed → ⊥ }
    ensures range { SameDesign (design conjunction) ranged → ⊥ }
    ensures dir { SameDesign (design conjunction) turned_inside → ⊥ }
    ensures automatic { SameDesign (design conjunction) made_up → ⊥ }
    ensures ports { SameDesign (design conjunction) turned_ports → ⊥ }
    ensures clock { SameDesign (design conjunction) clocked_by_a → ⊥ }
    ensures copies { SameDesign (design conjunction) copies_of_a → ⊥ }
{}

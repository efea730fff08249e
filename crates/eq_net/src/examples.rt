//! What the definitions say of operators, words and names, on values from outside. The checker computes each.

ghost use Rattle.std.specs.Prelude.{◌≡◌, ◌==◌, ◌-◌, ◌^◌, Bool, false, true, [], ◌∷◌, None, Some, ℕ};
ghost use Rattle.eq_net.specs.Meaning.{bit_of, copy_in, cost_of, reads_of};
ghost use Rattle.eq_net.specs.Naming.{index_of};
ghost use Rattle.eq_net.specs.Numbers.{digit, number};
ghost use Rattle.eq_net.specs.Operators.{choose, extended, negative, reduce};
ghost use Rattle.eq_net.specs.Samples.{computed, from_seven, net_with_range, nothing_earlier, sum_of_nets, wide_concatenation};
ghost use Rattle.eq_net.specs.declared.types.RedOp.TheVariants as red;
ghost use Rattle.eq_net.specs.declared.types.WordOp.TheVariants as op;

/// Operators of one and two bits.
pub fn narrow_operators()
    ensures sum { (computed op.Add 1 1 1 ≡ 0) × (computed op.Add 2 3 2 ≡ 1) }
    ensures difference { (computed op.Sub 1 0 1 ≡ 1) × (computed op.Sub 2 1 2 ≡ 3) }
    ensures shifts { (computed op.Shl 1 1 1 ≡ 0) × (computed op.Shl 2 1 1 ≡ 2) ×
        (computed op.Shr 2 2 1 ≡ 1) × (computed op.Shr 2 3 3 ≡ 0) }
    ensures order { (computed op.Lt 1 0 1 ≡ 1) × (computed op.Ge 2 2 2 ≡ 1) ×
        (computed op.Gt 2 2 2 ≡ 0) × (computed op.Le 2 3 2 ≡ 0) }
{}

/// Operators of a byte.
pub fn operators_of_a_byte()
    ensures bitwise { (computed op.And 8 0xF0 0x3C ≡ 0x30) × (computed op.Or 8 0xF0 0x3C ≡ 0xFC) ×
        (computed op.Xor 8 0xF0 0x3C ≡ 0xCC) × (computed op.Xnor 8 0xF0 0x3C ≡ 0x33) }
    ensures sum { (computed op.Add 8 200 100 ≡ 44) × (computed op.Sub 8 100 200 ≡ 156) ×
        (number 8 (negative 8 (digit 1)) ≡ 255) × (number 8 (negative 8 (digit 0)) ≡ 0) }
    ensures shifts { (computed op.Shl 8 0x81 1 ≡ 2) × (computed op.Shr 8 0x81 1 ≡ 0x40) ×
        (computed op.Shl 8 0xFF 8 ≡ 0) × (computed op.Shr 8 0xFF 255 ≡ 0) }
    ensures order { (computed op.Eq 8 7 7 ≡ 1) × (computed op.Ne 8 7 7 ≡ 0) ×
        (computed op.Lt 8 199 200 ≡ 1) × (computed op.Le 8 200 200 ≡ 1) ×
        (computed op.Gt 8 200 199 ≡ 1) × (computed op.Ge 8 199 200 ≡ 0) }
    ensures truth { (computed op.LogAnd 8 2 0 ≡ 0) × (computed op.LogAnd 8 2 128 ≡ 1) ×
        (computed op.LogOr 8 0 0 ≡ 0) × (computed op.LogOr 8 0 128 ≡ 1) }
    ensures reductions { (reduce red.And 8 (digit 255) ≡ true) ×
        (reduce red.And 8 (digit 127) ≡ false) × (reduce red.Or 8 (digit 0) ≡ false) ×
        (reduce red.Xor 8 (digit 7) ≡ true)
        × (reduce red.Nand 8 (digit 255) ≡ false) × (reduce red.Nor 8 (digit 0) ≡ true) ×
        (reduce red.Xnor 8 (digit 7) ≡ false) × (reduce red.Zero 8 (digit 256) ≡ true) }
    ensures choice { (number 8 (choose 2 (digit 2) (digit 5) (digit 9)) ≡ 5) ×
        (number 8 (choose 2 (digit 4) (digit 5) (digit 9)) ≡ 9) }
    ensures extension { number 8 (extended 4 (digit 255)) ≡ 15 }
{}

/// Operators of 64, 65 and 128 bits.
pub fn wide_operators()
    ensures of_64 { (computed op.Add 64 (2 ^ 64 - 1) 1 ≡ 0) ×
        (computed op.Sub 64 0 1 ≡ 2 ^ 64 - 1) × (computed op.Lt 64 (2 ^ 63 - 1) (2 ^ 63) ≡ 1) }
    ensures of_65 { (computed op.Add 65 (2 ^ 64) (2 ^ 64) ≡ 0) ×
        (computed op.Shr 65 (2 ^ 64) 64 ≡ 1) × (computed op.Eq 65 (2 ^ 64) 0 ≡ 0) }
    ensures of_128 { (computed op.Add 128 (2 ^ 128 - 1) 2 ≡ 1) ×
        (computed op.Shl 128 1 127 ≡ 2 ^ 127) × (computed op.Shl 128 1 128 ≡ 0) ×
        (computed op.Gt 128 (2 ^ 127) (2 ^ 127 - 1) ≡ 1) }
{}

/// A bit of a sum reads the bits of both operands up to its place, and none above; a bit that is read is copied, one that is
/// computed isn't; the first part of a concatenation has the highest bits.
pub fn words_by_position()
    ensures reads { reads_of from_seven nothing_earlier sum_of_nets 1 ≡ 7 ∷ 8 ∷ 17 ∷ 18 ∷ [] }
    ensures carry { reads_of from_seven nothing_earlier sum_of_nets 0 ≡ 7 ∷ 17 ∷ [] }
    ensures not_copied { copy_in from_seven (λ w j. None) sum_of_nets 0 ≡ None }
    ensures copied { copy_in from_seven (λ w j. None) wide_concatenation 0 ≡ Some 17 }
    ensures constant_not_copied { copy_in from_seven (λ w j. None) wide_concatenation 4 ≡ None }
    ensures zeros_not_copied { copy_in from_seven (λ w j. None) wide_concatenation 3 ≡ None }
    ensures value { number 6 (bit_of (λ b. b == 17) from_seven (λ w j. false)
        wide_concatenation) ≡ 33 }
    ensures cost { (cost_of sum_of_nets ≡ 10) × (cost_of wide_concatenation ≡ 0) }
{}

/// Position 0 has the right index, in either direction.
pub fn indices()
    ensures down { (index_of (net_with_range 7 4) 0 ≡ 4) × (index_of (net_with_range 7 4) 3 ≡ 7) }
    ensures up { (index_of (net_with_range 0 3) 0 ≡ 3) × (index_of (net_with_range 0 3) 3 ≡ 0) }
{}

//! Expressions over `[3:0] a`, `[3:0] b`, `[0:3] c` and `y`, whose bits are 0 to 3, 4 to 7, 8 to 11, and 12.
ghost use Rattle.std.specs.Prelude.{◌≡◌, ℕ, true, false, map, List, [], ◌∷◌, Some, None};
ghost use Rattle.eq_vparse.specs.declared.tree.UnOp.TheVariants as un;
ghost use Rattle.eq_vparse.specs.declared.tree.BinOp.TheVariants as bin;
ghost use Rattle.eq_verilog.specs.Trees.{net, bit, part, repeated, unary, binary, choice, join_all};
ghost use Rattle.eq_verilog.specs.Scopes.{position, index_at, is_select};
ghost use Rattle.eq_verilog.specs.Sizes.{own};
ghost use Rattle.eq_verilog.specs.Expressions.{wire, reads};
ghost use Rattle.eq_verilog.specs.samples.Writing.{a, b, c, y, range, sized, add, less, down};
ghost use Rattle.eq_verilog.specs.samples.Operands.{four_nets, gives, three_tries, unary_tries, binary_reads_at, unary_reads_at};

/// Position 0 has the right index, whatever the direction of the range. A select lies in the range and in its direction.
pub fn ranges()
    ensures falling { map (position (range 7 4)) (4 ∷ 7 ∷ []) ≡ 0 ∷ 3 ∷ [] }
    ensures rising { map (position (range 4 7)) (4 ∷ 7 ∷ []) ≡ 3 ∷ 0 ∷ [] }
    ensures indices { map (index_at (4, 7)) (0 ∷ 3 ∷ []) ≡ 7 ∷ 4 ∷ [] }
    ensures falling_select { map (λ (p : ℕ × ℕ). is_select (range 7 4) p.0 p.1)
        ((7, 4) ∷ (5, 5) ∷ (4, 7) ∷ (8, 4) ∷ (7, 3) ∷ []) ≡
        true ∷ true ∷ false ∷ false ∷ false ∷ [] }
    ensures rising_select { map (λ (p : ℕ × ℕ). is_select (range 4 7) p.0 p.1)
        ((4, 7) ∷ (5, 5) ∷ (7, 4) ∷ (4, 8) ∷ (3, 7) ∷ []) ≡
        true ∷ true ∷ false ∷ false ∷ false ∷ [] }
    ensures scalar { is_select None 0 0 ≡ false }
{}

/// The context of `a + b` has five bits where a net of five is assigned, but no context goes into a concatenation. a is 15
/// and b is 1.
pub fn contexts()
    ensures plain { gives 5 (add (net a) (net b)) (15, 1) ≡ 16 }
    ensures widened { gives 5 (add (join_all (sized 1 0 ∷ net a ∷ [])) (net b)) (15, 1) ≡ 16 }
    ensures alone { gives 5 (join_all (add (net a) (net b) ∷ [])) (15, 1) ≡ 0 }
    ensures shifted { gives 5 (down (add (net a) (net b)) (sized 1 1)) (15, 1) ≡ 8 }
    ensures shifted_alone { gives 5 (join_all (down (add (net a) (net b)) (sized 1 1) ∷ []))
        (15, 1) ≡ 0 }
    // An amount has its own size: 15 + 1 in four bits is 0, and nothing is shifted.
    ensures amount { gives 5 (down (sized 5 16) (add (net a) (net b))) (15, 1) ≡ 16 }
    ensures amount_of_16 { gives 5 (down (sized 5 16) (sized 5 16)) (15, 1) ≡ 0 }
    // The operands of a comparison have the larger size of the two, not the context's: 15 + 1 is 0 in four bits, 16 in five.
    ensures compared { gives 5 (less (add (net a) (net b)) (sized 4 1)) (15, 1) ≡ 1 }
    ensures wide_compared { gives 5 (less (add (net a) (net b)) (sized 5 1)) (15, 1) ≡ 0 }
    ensures compared_right { gives 5 (less (sized 5 1) (add (net a) (net b))) (15, 1) ≡ 1 }
    // A condition and what is reduced or negated as a truth value have their own sizes.
    ensures condition { gives 5 (choice (add (net a) (net b)) (sized 1 1) (sized 2 2)) (15, 1) ≡ 2 }
    ensures truth { gives 5 (unary un.LogNot (add (net a) (net b))) (15, 1) ≡ 1 }
    ensures both_true { gives 5 (binary bin.LogAnd (add (net a) (net b)) (sized 5 1)) (15, 1) ≡ 0 }
    ensures either_true { gives 5 (binary bin.LogOr (sized 5 0) (add (net a) (net b))) (15, 1) ≡ 0 }
    // The branches of a choice, and what is complemented, have the context's.
    ensures branch { gives 5 (choice (sized 2 2) (add (net a) (net b)) (sized 1 0)) (15, 1) ≡ 16 }
    ensures other_branch { gives 5 (choice (sized 2 0) (sized 1 0) (add (net a) (net b)))
        (15, 1) ≡ 16 }
    ensures complemented { gives 5 (unary un.Not (add (net a) (net b))) (15, 1) ≡ 15 }
{}

/// The size that an expression has by itself.
pub fn own_sizes()
    ensures names { map (own four_nets) (net a ∷ net y ∷ bit a 2 ∷ part a 2 1 ∷ part c 0 2 ∷ []) ≡
        4 ∷ 1 ∷ 1 ∷ 2 ∷ 3 ∷ [] }
    ensures joined { own four_nets (join_all (net a ∷ net y ∷ sized 7 0 ∷ [])) ≡ 12 }
    ensures repeated { own four_nets (repeated 3 (join_all (net a ∷ net y ∷ []))) ≡ 15 }
    ensures larger { map (λ op. own four_nets (binary op (net y) (net a)))
        (bin.Add ∷ bin.Sub ∷ bin.And ∷ bin.Or ∷ bin.Xor ∷ bin.Xnor ∷ []) ≡ 4 ∷ 4 ∷ 4 ∷ 4 ∷ 4 ∷
        4 ∷ [] }
    ensures left { map (λ op. own four_nets (binary op (net y) (net a)))
        (bin.Shl ∷ bin.Shr ∷ []) ≡ 1 ∷ 1 ∷ [] }
    ensures one { map (λ op. own four_nets (binary op (net a) (net a)))
        (bin.Eq ∷ bin.Ne ∷ bin.Lt ∷ bin.Le ∷ bin.Gt ∷ bin.Ge ∷ bin.LogAnd ∷ bin.LogOr ∷ []) ≡ 1 ∷
        1 ∷ 1 ∷ 1 ∷ 1 ∷ 1 ∷ 1 ∷ 1 ∷ [] }
    ensures kept { map (λ op. own four_nets (unary op (net a))) (un.Not ∷ un.Neg ∷ []) ≡
        4 ∷ 4 ∷ [] }
    ensures reduced { map (λ op. own four_nets (unary op (net a)))
        (un.LogNot ∷ un.RedAnd ∷ un.RedNand ∷ un.RedOr ∷ un.RedNor ∷ un.RedXor ∷ un.RedXnor ∷
        []) ≡ 1 ∷ 1 ∷ 1 ∷ 1 ∷ 1 ∷ 1 ∷ 1 ∷ [] }
    ensures chosen { own four_nets (choice (sized 9 0) (net y) (net a)) ≡ 4 }
{}

/// Each operator in a context of five bits: for a = 11 and b = 2, for 5 and 5, and for 0 and 3.
pub fn two_operands()
    ensures sum { three_tries bin.Add ≡ 13 ∷ 10 ∷ 3 ∷ [] }
    ensures difference { three_tries bin.Sub ≡ 9 ∷ 0 ∷ 29 ∷ [] }
    ensures up { three_tries bin.Shl ≡ 12 ∷ 0 ∷ 0 ∷ [] }
    ensures down { three_tries bin.Shr ≡ 2 ∷ 0 ∷ 0 ∷ [] }
    ensures less { three_tries bin.Lt ≡ 0 ∷ 0 ∷ 1 ∷ [] }
    ensures at_most { three_tries bin.Le ≡ 0 ∷ 1 ∷ 1 ∷ [] }
    ensures greater { three_tries bin.Gt ≡ 1 ∷ 0 ∷ 0 ∷ [] }
    ensures at_least { three_tries bin.Ge ≡ 1 ∷ 1 ∷ 0 ∷ [] }
    ensures equal { three_tries bin.Eq ≡ 0 ∷ 1 ∷ 0 ∷ [] }
    ensures unequal { three_tries bin.Ne ≡ 1 ∷ 0 ∷ 1 ∷ [] }
    ensures bitwise_and { three_tries bin.And ≡ 2 ∷ 5 ∷ 0 ∷ [] }
    ensures bitwise_or { three_tries bin.Or ≡ 11 ∷ 5 ∷ 3 ∷ [] }
    ensures bitwise_xor { three_tries bin.Xor ≡ 9 ∷ 0 ∷ 3 ∷ [] }
    ensures bitwise_xnor { three_tries bin.Xnor ≡ 22 ∷ 31 ∷ 28 ∷ [] }
    ensures both { three_tries bin.LogAnd ≡ 1 ∷ 1 ∷ 0 ∷ [] }
    ensures either { three_tries bin.LogOr ≡ 1 ∷ 1 ∷ 1 ∷ [] }
    ensures neither { gives 5 (binary bin.LogOr (net a) (net b)) (0, 0) ≡ 0 }
{}

/// Each operator of one operand in a context of five bits: for a = 11, 15 and 0.
pub fn one_operand()
    ensures complement { unary_tries un.Not ≡ 20 ∷ 16 ∷ 31 ∷ [] }
    ensures opposite { unary_tries un.Neg ≡ 21 ∷ 17 ∷ 0 ∷ [] }
    ensures zero { unary_tries un.LogNot ≡ 0 ∷ 0 ∷ 1 ∷ [] }
    ensures all { unary_tries un.RedAnd ≡ 0 ∷ 1 ∷ 0 ∷ [] }
    ensures not_all { unary_tries un.RedNand ≡ 1 ∷ 0 ∷ 1 ∷ [] }
    ensures some { unary_tries un.RedOr ≡ 1 ∷ 1 ∷ 0 ∷ [] }
    ensures none { unary_tries un.RedNor ≡ 0 ∷ 0 ∷ 1 ∷ [] }
    ensures odd { unary_tries un.RedXor ≡ 1 ∷ 0 ∷ 0 ∷ [] }
    ensures even { unary_tries un.RedXnor ≡ 0 ∷ 1 ∷ 1 ∷ [] }
{}

/// Concatenations have their first part highest, repeats hold a whole number of times what they repeat, and a constant or a
/// name is extended with zeros.
pub fn other_forms()
    ensures joined { gives 9 (join_all (sized 2 1 ∷ net a ∷ sized 1 1 ∷ [])) (11, 0) ≡ 55 }
    ensures repeated { gives 7 (repeated 2 (join_all (bit a 2 ∷ bit a 1 ∷ bit a 0 ∷ [])))
        (11, 0) ≡ 27 }
    ensures part { gives 5 (part a 3 1) (11, 0) ≡ 5 }
    ensures constant { gives 9 (sized 4 13) (0, 0) ≡ 13 }
    ensures chosen { map (gives 5 (choice (net b) (net a) (sized 5 31)))
        ((11, 2) ∷ (11, 0) ∷ []) ≡ 11 ∷ 31 ∷ [] }
{}

/// Which bit is meant at a position: c runs the other way. What has a value of its own is no wire.
pub fn wires()
    ensures falling { map (wire four_nets (net b)) (0 ∷ 3 ∷ 4 ∷ []) ≡ Some 4 ∷ Some 7 ∷ None ∷ [] }
    ensures rising { map (wire four_nets (part c 1 2)) (0 ∷ 1 ∷ 2 ∷ []) ≡
        Some 9 ∷ Some 10 ∷ None ∷ [] }
    ensures selected { map (wire four_nets (bit c 0)) (0 ∷ 1 ∷ []) ≡ Some 11 ∷ None ∷ [] }
    ensures joined { map (wire four_nets (join_all (net y ∷ sized 1 0 ∷ bit a 3 ∷ [])))
        (0 ∷ 1 ∷ 2 ∷ 3 ∷ []) ≡
        Some 3 ∷ None ∷ Some 12 ∷ None ∷ [] }
    ensures repeated { map (wire four_nets (repeated 2 (join_all (net y ∷ bit a 3 ∷ []))))
        (0 ∷ 1 ∷ 2 ∷ 3 ∷ 4 ∷ []) ≡
        Some 3 ∷ Some 12 ∷ Some 3 ∷ Some 12 ∷ None ∷ [] }
    ensures none { map (λ e. wire four_nets e 0) (unary un.Not (net a) ∷ add (net a)
        (net b) ∷ choice (net y) (net a) (net b) ∷ []) ≡
        None ∷ None ∷ None ∷ [] }
{}

/// What position 1 reads, where both operands have four bits, in a context of five.
pub fn reads_of_operators()
    ensures bitwise { map (binary_reads_at 1) (bin.And ∷ bin.Or ∷ bin.Xor ∷ bin.Xnor ∷ []) ≡
        (1 ∷ 5 ∷ []) ∷ (1 ∷ 5 ∷ []) ∷ (1 ∷ 5 ∷ []) ∷ (1 ∷ 5 ∷ []) ∷ [] }
    ensures sums { map (binary_reads_at 1) (bin.Add ∷ bin.Sub ∷ []) ≡
        (0 ∷ 1 ∷ 4 ∷ 5 ∷ []) ∷ (0 ∷ 1 ∷ 4 ∷ 5 ∷ []) ∷ [] }
    ensures up { binary_reads_at 1 bin.Shl ≡ 0 ∷ 1 ∷ 4 ∷ 5 ∷ 6 ∷ 7 ∷ [] }
    ensures down { binary_reads_at 1 bin.Shr ≡ 1 ∷ 2 ∷ 3 ∷ 4 ∷ 5 ∷ 6 ∷ 7 ∷ [] }
    ensures one_bit { map (binary_reads_at 0) (bin.Lt ∷ bin.Ne ∷ bin.LogOr ∷ []) ≡
        (0 ∷ 1 ∷ 2 ∷ 3 ∷ 4 ∷ 5 ∷ 6 ∷ 7 ∷ []) ∷ (0 ∷ 1 ∷ 2 ∷ 3 ∷ 4 ∷ 5 ∷ 6 ∷ 7 ∷ []) ∷ (0 ∷ 1 ∷
        2 ∷ 3 ∷ 4 ∷ 5 ∷ 6 ∷ 7 ∷ []) ∷ [] }
    ensures above { map (binary_reads_at 1) (bin.Lt ∷ bin.Eq ∷ bin.LogAnd ∷ []) ≡
        [] ∷ [] ∷ [] ∷ [] }
    ensures unary { map (unary_reads_at 1) (un.Not ∷ un.Neg ∷ un.RedXor ∷ []) ≡
        (1 ∷ []) ∷ (0 ∷ 1 ∷ []) ∷ [] ∷ [] }
    ensures reduced { unary_reads_at 0 un.RedAnd ≡ 0 ∷ 1 ∷ 2 ∷ 3 ∷ [] }
    ensures extended { map (λ e. reads four_nets e 5 4) (net a ∷ sized 1 1 ∷ join_all (net a ∷
        []) ∷ []) ≡ [] ∷ [] ∷ [] ∷ [] }
    ensures chosen { reads four_nets (choice (part a 1 0) (net b) (net c)) 5 1 ≡
        0 ∷ 1 ∷ 5 ∷ 9 ∷ [] }
    ensures repeated { map (reads four_nets (repeated 2 (join_all (net y ∷ bit a 3 ∷ []))) 5)
        (1 ∷ 2 ∷ 4 ∷ []) ≡ (12 ∷ []) ∷ (3 ∷ []) ∷ [] ∷ [] }
{}

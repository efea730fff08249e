//! What expressions and designs cost.
ghost use Rattle.std.specs.Prelude.{◌≡◌, map, List, [], ◌∷◌, Some, None};
ghost use Rattle.eq_vparse.specs.declared.tree.UnOp.TheVariants as un;
ghost use Rattle.eq_vparse.specs.declared.tree.BinOp.TheVariants as bin;
ghost use Rattle.eq_verilog.specs.Trees.{net, bit, unary, binary, choice, repeated, join_all, set, branch, idle, in_sequence};
ghost use Rattle.eq_verilog.specs.Costs.{cost, design_cost};
ghost use Rattle.eq_verilog.specs.Refusals.{excess, fault, too_large};
ghost use Rattle.eq_verilog.specs.samples.Writing.{a, b, c, y, q, t, add, and, sized, simple, five};
ghost use Rattle.eq_verilog.specs.samples.Operands.{four_nets};
ghost use Rattle.eq_verilog.specs.samples.Hierarchies as hierarchy;
ghost use Rattle.eq_verilog.specs.samples.Clocking.{clocked};
ghost use Rattle.eq_verilog.specs.samples.Refused.{shifted, or_gate, not_gate};

/// Operators of `[3:0] a` and `[3:0] b` in a context of five bits. Comparisons and reductions have the operands' four.
pub fn operators()
    ensures bitwise { map (λ op. cost four_nets (binary op (net a) (net b)) 5)
        (bin.And ∷ bin.Or ∷ bin.Xor ∷ bin.Xnor ∷ []) ≡
        5 ∷ 20 ∷ 5 ∷ 10 ∷ [] }
    ensures sums { map (λ op. cost four_nets (binary op (net a) (net b)) 5)
        (bin.Add ∷ bin.Sub ∷ []) ≡ 25 ∷ 30 ∷ [] }
    ensures shifts { map (λ op. cost four_nets (binary op (net a) (net b)) 5)
        (bin.Shl ∷ bin.Shr ∷ []) ≡ 20 ∷ 20 ∷ [] }
    ensures small_shift { cost four_nets (binary bin.Shr (net a) (bit b 0)) 5 ≡ 5 }
    ensures comparisons { map (λ op. cost four_nets (binary op (net a) (net y)) 5)
        (bin.Eq ∷ bin.Ne ∷ bin.Lt ∷ bin.Le ∷ bin.Gt ∷ bin.Ge ∷ []) ≡ 12 ∷ 13 ∷ 9 ∷ 9 ∷ 9 ∷ 9 ∷ [] }
    ensures truths { map (λ op. cost four_nets (binary op (net a) (net y)) 5)
        (bin.LogAnd ∷ bin.LogOr ∷ []) ≡
        24 ∷ 24 ∷ [] }
    ensures unary { map (λ op. cost four_nets (unary op (net a)) 5)
        (un.Not ∷ un.Neg ∷ un.LogNot ∷ []) ≡
        5 ∷ 30 ∷ 17 ∷ [] }
    ensures reductions { map (λ op. cost four_nets (unary op (net a)) 5)
        (un.RedAnd ∷ un.RedNand ∷ un.RedOr ∷ un.RedNor ∷ un.RedXor ∷ un.RedXnor ∷ []) ≡
        4 ∷ 5 ∷ 16 ∷ 17 ∷ 4 ∷ 5 ∷ [] }
    ensures choice { cost four_nets (choice (net a) (net b) (net c)) 5 ≡ 21 }
{}

/// The costs of operands are added, each in its size. What is repeated costs once, names and constants nothing.
pub fn expressions()
    ensures nested { cost four_nets (add (and (net a) (net b)) (unary un.Not (net a))) 5 ≡ 35 }
    ensures joined { cost four_nets (join_all (and (net a) (net b) ∷ and (net y)
        (net y) ∷ [])) 9 ≡ 5 }
    ensures repeated { cost four_nets (repeated 3 (join_all (and (net a) (net b) ∷ []))) 12 ≡ 4 }
    ensures condition { cost four_nets (choice (and (net a) (net b)) (net b) (add (net b)
        (net c))) 5 ≡ 50 }
    ensures nothing { map (λ e. cost four_nets e 9) (net a ∷ bit a 1 ∷ sized 4 9 ∷ []) ≡
        0 ∷ 0 ∷ 0 ∷ [] }
{}

/// 2, a node for each bit, and the items. clk, a and q of `clocked` have five bits.
pub fn designs()
    // 13 bits, and the amount has one bit
    ensures small_shift { design_cost (five (binary bin.Shr (net a) (bit b 0))) t ≡ 20 }
    // 2 bits; a gate of two inputs
    ensures gate { design_cost or_gate t ≡ 13 }
    // 3 bits; two outputs of one input, whose terminal costs 1
    ensures outputs { design_cost not_gate t ≡ 16 }
    // three instances below the top, nine bits, two inverters
    ensures instances { design_cost hierarchy.nested t ≡ 16 }
    // one instance, five bits, and a connection in the two bits of its port
    ensures connection { design_cost hierarchy.narrow_sum t ≡ 10 }
    // a condition of two bits, and the two bits that are set
    ensures branch { design_cost (clocked (branch (net a) (set (net q) (net a)) idle)) t ≡ 17 }
    // the same bits set by two statements are two bits; an `if` without them costs the same
    ensures branches { design_cost (clocked (in_sequence (branch (net a) idle idle ∷ set (net q)
        (net a) ∷
        set (bit q 0) (bit a 1) ∷ []))) t ≡ 17 }
    // a sum on one side of a register
    ensures next { design_cost (clocked (set (net q) (add (net q) (sized 3 1)))) t ≡ 22 }
{}

/// A shift of 1,024 bits by as many costs 1,048,576. Two of them are too much.
pub fn limits()
    ensures one_shift { design_cost (shifted 1) t ≡ 1049605 }
    ensures two_shifts { fault (shifted 2) t ≡ Some (too_large 2098182) }
    ensures limit { map excess (2000000 ∷ 2000001 ∷ []) ≡ None ∷ Some 2000001 ∷ [] }
    ensures told { map excess (1000000000 ∷ 1000000001 ∷ []) ≡
        Some 1000000000 ∷ Some 1000000000 ∷ [] }
{}

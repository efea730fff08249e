//! What drives the bits of a design: assignments, gates and connections.
ghost use Rattle.std.specs.Prelude.{◌≡◌, ◌+◌, ◌*◌, map, List, [], ◌∷◌, Some, None};
ghost use Rattle.eq_vparse.specs.declared.tree.GateKind.TheVariants as prim;
ghost use Rattle.eq_net.specs.Numbers.{digit};
ghost use Rattle.eq_verilog.specs.Trees.{net, repeated, join_all, unary};
ghost use Rattle.eq_verilog.specs.Designs.{flat_of, copy_of};
ghost use Rattle.eq_verilog.specs.samples.Writing.{a, b, c, y, z, t, five, add, sized};
ghost use Rattle.eq_verilog.specs.samples.Hierarchies as hierarchy;
ghost use Rattle.eq_verilog.specs.samples.Assignments as assignment;
ghost use Rattle.eq_verilog.specs.samples.Assignments.{computes, reads_at};

/// `[0:3] y = [3:0] a`: bits are assigned by position, so y[3] is a[0]. Bits 0 to 3 are a's, 4 to 7 are y's.
pub fn ascending_range()
    ensures whole { map (copy_of (flat_of assignment.turned_whole t)) (4 ∷ 5 ∷ 6 ∷ 7 ∷ []) ≡
        Some 0 ∷ Some 1 ∷ Some 2 ∷ Some 3 ∷ [] }
    ensures by_bits { map (copy_of (flat_of assignment.turned_bits t)) (4 ∷ 5 ∷ 6 ∷ 7 ∷ []) ≡
        Some 0 ∷ Some 1 ∷ Some 2 ∷ Some 3 ∷ [] }
    ensures crossed { map (copy_of (flat_of assignment.crossed_bits t)) (4 ∷ 5 ∷ 6 ∷ 7 ∷ []) ≡
        Some 3 ∷ Some 2 ∷ Some 1 ∷ Some 0 ∷ [] }
{}

/// A sum, and a ripple carry whose bits are apart: c[1] reads a[0], b[0] and c[0]. Bits 12 to 16 are c's. a is 9 and b is 8.
pub fn ripple_carry()
    ensures sum { computes assignment.sum y 4 (digit (9 + 16 * 8)) ≡ 1 }
    ensures reads { reads_at assignment.sum y 1 ≡ 0 ∷ 1 ∷ 4 ∷ 5 ∷ [] }
    ensures apart { reads_at assignment.ripple c 1 ≡ 0 ∷ 4 ∷ 12 ∷ 0 ∷ 4 ∷ [] }
{}

/// A right side has the larger size of the two sides, and its low bits are kept. a is 15 and b is 1.
pub fn sides()
    ensures larger_target { computes (five (add (net a) (net b))) y 5 (digit (15 + 16 * 1)) ≡ 16 }
    ensures larger_source { computes (five (add (net a) (sized 7 127))) y 5 (digit 15) ≡ 14 }
    ensures alone { computes (five (join_all (add (net a) (net b) ∷
        []))) y 5 (digit (15 + 16 * 1)) ≡ 0 }
    ensures copies { map (copy_of (flat_of (five (net a)) t)) (8 ∷ 11 ∷ 12 ∷ []) ≡
        Some 0 ∷ Some 3 ∷ None ∷ [] }
    ensures extended { reads_at (five (net a)) y 4 ≡ [] }
    ensures no_copy { copy_of (flat_of (five (add (net a) (net b))) t) 8 ≡ None }
    ensures in_repeat { copy_of (flat_of (five (repeated 2 (join_all (net a ∷ [])))) t) 12 ≡
        Some 0 }
    ensures targets { map (copy_of (flat_of assignment.joined_target t)) (1 ∷ 2 ∷ []) ≡
        None ∷ Some 0 ∷ [] }
    ensures outside { copy_of (flat_of assignment.joined_target t) 0 ≡ None }
{}

/// A gate is the reduction of its inputs: a is 1, b[0] is 0 and b[1] is 1, then all are 1. `buf` and `not` have their outputs
/// first. A `buf` is a plain copy, an `and` of one input isn't.
pub fn gates()
    ensures two_high { map (λ k. computes (assignment.three_inputs k) y 1 (digit 5))
        (prim.And ∷ prim.Nand ∷ prim.Or ∷ prim.Nor ∷ prim.Xor ∷ prim.Xnor ∷ []) ≡
        0 ∷ 1 ∷ 1 ∷ 0 ∷ 0 ∷ 1 ∷ [] }
    ensures all_high { map (λ k. computes (assignment.three_inputs k) y 1 (digit 7))
        (prim.And ∷ prim.Nand ∷ prim.Or ∷ prim.Nor ∷ prim.Xor ∷ prim.Xnor ∷ []) ≡
        1 ∷ 0 ∷ 1 ∷ 0 ∷ 1 ∷ 0 ∷ [] }
    ensures all_low { map (λ k. computes (assignment.three_inputs k) y 1 (digit 0))
        (prim.And ∷ prim.Nand ∷ prim.Or ∷ prim.Nor ∷ prim.Xor ∷ prim.Xnor ∷ []) ≡
        0 ∷ 1 ∷ 0 ∷ 1 ∷ 0 ∷ 1 ∷ [] }
    ensures reads { reads_at (assignment.three_inputs prim.Xor) y 0 ≡ 2 ∷ 1 ∷ 0 ∷ [] }
    ensures buffer { copy_of (flat_of (assignment.one_input prim.Buf) t) 1 ≡ Some 0 }
    ensures no_buffer { map (λ k. copy_of (flat_of (assignment.one_input k) t) 1)
        (prim.And ∷ prim.Not ∷ []) ≡
        None ∷ None ∷ [] }
    ensures one_input { map (λ k. computes (assignment.one_input k) y 1 (digit 1))
        (prim.And ∷ prim.Nand ∷ prim.Buf ∷ prim.Not ∷ []) ≡ 1 ∷ 0 ∷ 1 ∷ 0 ∷ [] }
    ensures two_outputs { map (copy_of (flat_of (assignment.two_outputs prim.Buf) t)) (1 ∷ 2 ∷ []) ≡
        Some 0 ∷ Some 0 ∷ [] }
    ensures two_negated { map (λ n. computes (assignment.two_outputs prim.Not) n 1 (digit 0))
        (y ∷ z ∷ []) ≡ 1 ∷ 1 ∷ [] }
    ensures one_output { map (λ n. reads_at (assignment.two_outputs prim.And) n 0) (y ∷ z ∷ []) ≡
        (0 ∷ 2 ∷ []) ∷ [] ∷ [] }
{}

/// A connection of an input is an assignment to the port, one of an output an assignment of it. u.y is bit 5 of `widened`,
/// u.a bits 2 and 3 of `narrow`: an upper bit that isn't connected has an equation of 0, and is no copy.
pub fn connections()
    ensures nested { map (copy_of (flat_of hierarchy.nested t))
        (0 ∷ 1 ∷ 2 ∷ 3 ∷ 4 ∷ 5 ∷ 6 ∷ 7 ∷ 8 ∷ []) ≡
        None ∷ Some 3 ∷ Some 0 ∷ Some 8 ∷ Some 6 ∷ Some 2 ∷ None ∷ Some 4 ∷ None ∷ [] }
    ensures wide { map (copy_of (flat_of hierarchy.widened t)) (1 ∷ 2 ∷ 3 ∷ []) ≡
        Some 5 ∷ None ∷ None ∷ [] }
    ensures wide_value { computes hierarchy.widened y 3 (digit 63) ≡ 1 }
    ensures narrow { map (copy_of (flat_of hierarchy.narrow t)) (1 ∷ 2 ∷ 3 ∷ []) ≡
        Some 4 ∷ Some 0 ∷ None ∷ [] }
{}

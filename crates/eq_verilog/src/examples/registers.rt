//! Registers: initial values, statements, and the clock.
ghost use Rattle.std.specs.Prelude.{◌≡◌, ◌+◌, ◌*◌, true, false, map, List, [], ◌∷◌, Some, None};
ghost use Rattle.eq_net.specs.Numbers.{digit};
ghost use Rattle.eq_verilog.specs.Trees.{net, bit, set, idle, branch, in_sequence};
ghost use Rattle.eq_verilog.specs.Designs.{flat_of, copy_of, design_of, ends, clock_bit};
ghost use Rattle.eq_verilog.specs.Registers.{begins};
ghost use Rattle.eq_verilog.specs.samples.Writing.{a, q, t, clk, sized};
ghost use Rattle.eq_verilog.specs.samples.Assignments as assignment;
ghost use Rattle.eq_verilog.specs.samples.Assignments.{computes, reads_at};
ghost use Rattle.eq_verilog.specs.samples.Clocking as clocking;
ghost use Rattle.eq_verilog.specs.samples.Clocking.{clocked, starting};

/// An initial value is cut, or extended with zeros. Bits of q are 3 to 6.
pub fn initial_values()
    ensures extended { map (begins (flat_of (starting 2 2) t).initials) (3 ∷ 4 ∷ 5 ∷ 6 ∷ 7 ∷ []) ≡
        Some false ∷ Some true ∷ Some false ∷ Some false ∷ None ∷ [] }
    ensures cut { map (begins (flat_of (starting 5 21) t).initials) (3 ∷ 4 ∷ 5 ∷ 6 ∷ 7 ∷ []) ≡
        Some true ∷ Some false ∷ Some true ∷ Some false ∷ None ∷ [] }
{}

/// A counter as a netlist writer puts it, and the same with the choice in an assignment. Bits: clk 0, en 1, q 2 to 5, `_00_` 6
/// to 9, `en.q` 10.
pub fn counter()
    ensures clock { (design_of clocking.counter t).clock ≡ Some clk }
    ensures copy { copy_of (flat_of clocking.counter t) 10 ≡ Some 1 }
    ensures counts { computes clocking.counter q 4 (digit (4 * 7 + 64 * 8 + 1024)) ≡ 8 }
    ensures stands { computes clocking.counter q 4 (digit (4 * 7 + 64 * 8)) ≡ 7 }
    ensures next_reads { reads_at clocking.counter q 0 ≡ 10 ∷ 6 ∷ 2 ∷ [] }
    ensures made { computes clocking.counter clocking.made 4 (digit (4 * 15)) ≡ 0 }
    ensures chosen { computes clocking.choosing_counter clocking.made 4 (digit (4 * 7 + 1024)) ≡ 8 }
    ensures chosen_reads { reads_at clocking.choosing_counter q 0 ≡ 6 ∷ [] }
{}

/// Statements run in order on the values before the edge: a later assignment wins, what isn't assigned is kept, and an `if`
/// chooses what it sets. Bits: clk 0, a 1 and 2, q 3 and 4; a is 1 and q is 2.
pub fn statements()
    ensures plain { computes (clocked (set (net q) (net a))) q 2 (digit 18) ≡ 1 }
    ensures later { computes (clocked (in_sequence (set (net q) (net a) ∷ set (bit q 1)
        (bit a 0) ∷ [])))
        q 2 (digit 18) ≡ 3 }
    ensures before_edge { computes (clocked (in_sequence (set (bit q 0) (bit q 1) ∷
        set (bit q 1) (bit q 0) ∷ []))) q 2 (digit 18) ≡ 1 }
    ensures kept { computes (clocked (set (bit q 0) (bit a 0))) q 2 (digit 18) ≡ 3 }
    ensures unset { computes (clocked idle) q 2 (digit 18) ≡ 2 }
    ensures unset_reads { reads_at (clocked idle) q 1 ≡ 4 ∷ [] }
{}

/// An `if` on the same bits. What neither branch sets is left as it is, and reads no condition.
pub fn conditions()
    ensures taken { computes (clocked (branch (net a) (set (net q) (sized 2 0)) (set (bit q 0)
        (sized 1 1))))
        q 2 (digit 18) ≡ 0 }
    ensures other { computes (clocked (branch (bit a 1) (set (net q) (sized 2 0)) (set (bit q 0)
        (sized 1 1))))
        q 2 (digit 18) ≡ 3 }
    // The branch taken sets q[0] alone, so q[1] is what stood before the `if`.
    ensures kept { computes (clocked (in_sequence (set (bit q 1) (sized 1 0) ∷
        branch (net a) (set (bit q 0) (sized 1 1)) (set (net q)
        (sized 2 2)) ∷ []))) q 2 (digit 18) ≡ 1 }
    ensures without_else { computes (clocked (branch (bit a 1) (set (net q)
        (sized 2 1)) idle)) q 2 (digit 18) ≡ 2 }
    ensures empty_reads { reads_at (clocked (branch (net a) idle idle)) q 0 ≡ 3 ∷ [] }
    ensures half_reads { reads_at (clocked (branch (net a) (set (bit q 0)
        (sized 1 0)) idle)) q 1 ≡ 4 ∷ [] }
    ensures set_reads { reads_at (clocked (branch (net a) (set (bit q 0) (sized 1 0)) idle)) q 0 ≡
        1 ∷ 2 ∷ 3 ∷ [] }
    ensures beside { reads_at (clocked (in_sequence (set (bit q 1) (bit a 0) ∷
        branch (net a) (set (bit q 0) (sized 1 0)) idle ∷ []))) q 1 ≡ 1 ∷ [] }
{}

/// An event is followed through wires, buffers, concatenations and ports to the bit where copies end.
pub fn clock_bits()
    ensures plain { clock_bit (flat_of (clocking.stored []) t) ≡ Some 0 }
    ensures buffered { clock_bit (flat_of clocking.buffered_clock t) ≡ Some 0 }
    ensures joined { clock_bit (flat_of clocking.joined_clock t) ≡ Some 0 }
    ensures lowest { clock_bit (flat_of clocking.lowest_clock t) ≡ Some 0 }
    ensures inner { clock_bit (flat_of clocking.inner_clock t) ≡ Some 0 }
    // Gates, extensions and registers are no copies: the event ends at itself.
    ensures gated { clock_bit (flat_of clocking.gated_clock t) ≡ Some 4 }
    ensures extended { clock_bit (flat_of clocking.extended_clock t) ≡ Some 5 }
    ensures ring { clock_bit (flat_of clocking.ring_clock t) ≡ None }
    ensures without { (design_of assignment.ring t).clock ≡ None }
    // A clock is there where there is an always item, whatever it sets.
    ensures idle { (design_of (clocked idle) t).clock ≡ Some clk }
    ensures no_item { (design_of (starting 2 2) t).clock ≡ None }
{}

//! Refusals of nets and bits of the whole design. t is the top of each design.
ghost use Rattle.std.specs.Prelude.{◌≡◌, [], ◌∷◌, Some, None, codes};
ghost use Rattle.eq_verilog.specs.declared.refusal.ElabKind.TheVariants as kind;
ghost use Rattle.eq_verilog.specs.Trees.{net, set, in_sequence, always};
ghost use Rattle.eq_verilog.specs.Refusals.{fault, at, looped, IsRefusedFor, IsAccepted};
ghost use Rattle.eq_verilog.specs.samples.Writing.{a, c, y, z, q, t, clk, and, reg, begun, gets, wired};
ghost use Rattle.eq_verilog.specs.samples.Hierarchies as hierarchy;
ghost use Rattle.eq_verilog.specs.samples.Assignments as assignment;
ghost use Rattle.eq_verilog.specs.samples.Clocking as clocking;
ghost use Rattle.eq_verilog.specs.samples.Clocking.{clocked, timed, stored, storing};
ghost use Rattle.eq_verilog.specs.samples.Refused as refused;

/// Nets of one full name; bits with two drivers or with none.
pub fn drivers_refused()
    ensures path_clash { fault hierarchy.clashing t ≡ Some (at kind.PathClash (codes "u.y")) }
    ensures equations { fault refused.two_equations t ≡ Some (at kind.TwoDrivers y) }
    ensures upper { fault refused.two_upper t ≡ Some (at kind.TwoDrivers (codes "y[2]")) }
    ensures terminals { fault refused.two_terminals t ≡ Some (at kind.TwoDrivers y) }
    ensures instance { fault refused.assigned_output t ≡ Some (at kind.TwoDrivers y) }
    ensures always_items { fault (stored (always (net clk) (set (net q) (net a)) ∷ [])) t ≡
        Some (at kind.TwoDrivers q) }
    ensures one_item { fault (clocked (in_sequence (set (net q) (net a) ∷ set (net q)
        (net a) ∷ []))) t ≡ None }
    ensures inits { fault (stored (begun q 1 0 ∷ [])) t ≡ Some (at kind.TwoDrivers q) }
{}

/// Bits that are read, or are outputs, and have no driver; registers without a value to begin at.
pub fn bits_refused()
    ensures output { fault refused.no_driver t ≡ Some (at kind.Undriven y) }
    ensures read { fault refused.open_wire t ≡ Some (at kind.Undriven z) }
    ensures next { fault (storing (net clk) (net z) (wired z ∷ [])) t ≡ Some (at kind.Undriven z) }
    ensures unread { fault refused.unread t ≡ None }
    ensures open_input { fault refused.open_input t ≡ Some (at kind.Undriven (codes "u.a")) }
    ensures empty_connection { fault refused.empty_connection t ≡
        Some (at kind.Undriven (codes "u.a")) }
    ensures open_output { fault refused.open_output t ≡ None }
    ensures no_init { fault refused.no_init t ≡ Some (at kind.NoInit q) }
    ensures half_begun { fault refused.half_begun t ≡ Some (at kind.NoInit (codes "q[1]")) }
{}

/// A clock may come through wires, buffers and ports. It is an input of the top without a range.
pub fn clocks()
    ensures plain { fault (stored []) t ≡ None }
    ensures buffered { fault clocking.buffered_clock t ≡ None }
    ensures joined { fault clocking.joined_clock t ≡ None }
    ensures inner { fault clocking.inner_clock t ≡ None }
    ensures wide { fault clocking.wide_clock t ≡ Some (at kind.TwoClocks (codes "clk[0]")) }
    ensures gated { fault clocking.gated_clock t ≡ Some (at kind.TwoClocks c) }
    ensures copied_gate { fault clocking.copied_gate t ≡ Some (at kind.TwoClocks c) }
    ensures two_inputs { fault clocking.two_edges t ≡ Some (at kind.TwoClocks a) }
    ensures ring { fault clocking.ring_clock t ≡ Some (at kind.TwoClocks c) }
    ensures of_register { fault (storing (net q) (net a) []) t ≡ Some (at kind.TwoClocks q) }
    ensures undriven { fault (storing (net c) (net a) (wired c ∷ [])) t ≡
        Some (at kind.TwoClocks c) }
{}

/// The clock is no data: it is neither read, nor a next value, nor an output, also under another name.
pub fn clocks_as_data()
    ensures read { fault (stored (wired z ∷ gets z (and (net clk) (net a)) ∷ [])) t ≡
        Some (at kind.ClockAsData z) }
    ensures aliased { fault clocking.aliased_clock t ≡ Some (at kind.ClockAsData z) }
    ensures copied { fault (stored (wired z ∷ gets z (net clk) ∷ [])) t ≡ None }
    ensures as_next { fault (storing (net clk) (net clk) []) t ≡ Some (at kind.ClockAsData q) }
    ensures as_output { fault (timed (reg q ∷ begun q 1 0 ∷ always (net clk) (set (net q)
        (net a)) ∷ gets y (net clk) ∷ [])) t ≡
        Some (at kind.ClockAsData y) }
{}

/// The designs of the other examples that nothing is wrong with.
pub fn nothing_wrong()
    ensures turned { fault assignment.turned_whole t ≡ None }
    ensures ripple { fault assignment.ripple t ≡ None }
    ensures nested { fault hierarchy.nested t ≡ None }
    ensures widened { fault hierarchy.widened t ≡ None }
    ensures counter { fault clocking.counter t ≡ None }
{}

/// A ring of two bits: the first on it is named. A vector that reads its own lower bits is no loop, nor is a ripple carry; a
/// sum with itself is one. A counter reads itself across the edge. The proofs stand in proofs/Loops.antt.
pub fn loops()
    ensures ring { IsRefusedFor assignment.ring t (looped (codes "c[0]")) }
    ensures shifted { IsAccepted assignment.shifted_wires t }
    ensures added { IsRefusedFor assignment.adding_wires t (looped (codes "c[0]")) }
    ensures ripple { IsAccepted assignment.ripple t }
    ensures counter { IsAccepted clocking.counter t }
{}

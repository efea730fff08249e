//! Of two conditions that hold, the one that comes first in the order of refusals counts, also where the other has an
//! earlier place. t is the top of each design.
ghost use Rattle.std.specs.Prelude.{◌≡◌, Some, codes};
ghost use Rattle.eq_verilog.specs.declared.refusal.ElabKind.TheVariants as kind;
ghost use Rattle.eq_verilog.specs.Refusals.{fault, at, too_large};
ghost use Rattle.eq_verilog.specs.samples.Writing.{a, c, y, z, q, t, u, m};
ghost use Rattle.eq_verilog.specs.samples.Several as several;
ghost use Rattle.eq_verilog.specs.samples.Refused.{k};

/// Conditions on modules. Of one condition, the module that is visited first.
pub fn modules_in_order()
    ensures modules { fault several.twice_without_top t ≡ Some (at kind.DuplicateModule m) }
    ensures unknown { fault several.recursive_and_unknown t ≡ Some (at kind.UnknownModule k) }
    ensures recursive { fault several.twice_and_recursive t ≡ Some (at kind.Recursive t) }
    ensures twice { fault several.unknown_and_twice t ≡ Some (at kind.DuplicateName z) }
    ensures names { fault several.range_and_unknown t ≡ Some (at kind.UnknownName z) }
    ensures ranges { fault several.target_and_range t ≡ Some (at kind.BadRange y) }
    ensures top { fault several.two_targets t ≡ Some (at kind.BadTarget a) }
    ensures targets { fault several.terminal_and_target t ≡ Some (at kind.BadTarget a) }
    ensures terminals { fault several.cost_and_terminal t ≡ Some (at kind.BadConnection u) }
{}

/// The size, and conditions on nets and bits.
pub fn bits_in_order()
    ensures cost { fault several.clash_and_cost t ≡ Some (too_large 2098187) }
    ensures clash { fault several.drivers_and_clash t ≡ Some (at kind.PathClash (codes "u.y")) }
    ensures drivers { fault several.undriven_and_drivers t ≡ Some (at kind.TwoDrivers y) }
    ensures undriven { fault several.no_init_and_undriven t ≡ Some (at kind.Undriven c) }
    ensures no_init { fault several.clock_and_no_init t ≡ Some (at kind.NoInit q) }
    ensures clocks { fault several.data_and_clocks t ≡ Some (at kind.TwoClocks c) }
    ensures data { fault several.loop_and_data t ≡ Some (at kind.ClockAsData z) }
    ensures undriven_first { fault several.loop_and_undriven t ≡ Some (at kind.Undriven y) }
{}

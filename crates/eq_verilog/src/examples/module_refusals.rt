//! Refusals of modules, names and ranges. t is the top of each design.
ghost use Rattle.std.specs.Prelude.{◌≡◌, ℕ, map, List, [], ◌∷◌, Some, None};
ghost use Rattle.eq_verilog.specs.declared.refusal.ElabKind.TheVariants as kind;
ghost use Rattle.eq_verilog.specs.Trees.{net, bit, part};
ghost use Rattle.eq_verilog.specs.ModuleRefusals.{bad_range};
ghost use Rattle.eq_verilog.specs.Refusals.{fault, at};
ghost use Rattle.eq_verilog.specs.samples.Writing.{a, y, z, q, t, u, m, clk, five};
ghost use Rattle.eq_verilog.specs.samples.Refused as refused;
ghost use Rattle.eq_verilog.specs.samples.Refused.{k, vector, used_vector, repeats};

/// Modules that are there twice or not at all, or that contain themselves.
pub fn modules_refused()
    ensures twice { fault refused.module_twice t ≡ Some (at kind.DuplicateModule m) }
    ensures no_top { fault [] t ≡ Some (at kind.NoTop t) }
    ensures other_top { fault refused.unknown_module q ≡ Some (at kind.NoTop q) }
    ensures unknown { fault refused.unknown_module t ≡ Some (at kind.UnknownModule k) }
    ensures unreached { fault refused.unreached t ≡ None }
    ensures in_itself { fault refused.in_itself t ≡ Some (at kind.Recursive t) }
    ensures below { fault refused.below_top t ≡ Some (at kind.Recursive m) }
    ensures through { fault refused.through_another t ≡ Some (at kind.Recursive t) }
{}

/// Names that are declared twice, or not at all. A direction goes with a wire or a reg, and a use may stand before its
/// declaration.
pub fn names_refused()
    ensures directions { fault refused.two_directions t ≡ Some (at kind.DuplicateName a) }
    ensures both_directions { fault refused.both_directions t ≡ Some (at kind.DuplicateName a) }
    ensures wire_and_reg { fault refused.wire_and_reg t ≡ Some (at kind.DuplicateName z) }
    ensures output_wire { fault refused.output_wire t ≡ None }
    ensures in_header { fault refused.port_twice t ≡ Some (at kind.DuplicateName a) }
    ensures instance_as_net { fault refused.instance_as_net t ≡ Some (at kind.DuplicateName a) }
    ensures instance_as_wire { fault refused.instance_as_wire t ≡ Some (at kind.DuplicateName z) }
    ensures gates { fault refused.two_gates t ≡ Some (at kind.DuplicateName u) }
    ensures gate_and_instance { fault refused.gate_and_instance t ≡ Some (at kind.DuplicateName u) }
    ensures first_place { fault refused.two_names_twice t ≡ Some (at kind.DuplicateName z) }
    ensures undeclared { fault refused.undeclared t ≡ Some (at kind.UnknownName z) }
    ensures declared_later { fault refused.declared_later t ≡ None }
    ensures event { fault refused.undeclared_event t ≡ Some (at kind.UnknownName z) }
    ensures no_direction { fault refused.no_direction t ≡ Some (at kind.UnknownName a) }
    ensures no_port { fault refused.no_port t ≡ Some (at kind.UnknownName z) }
{}

/// Ranges that differ, and selects that don't lie in their net's range.
pub fn ranges_refused()
    ensures two_ranges { fault refused.two_ranges t ≡ Some (at kind.BadRange y) }
    ensures turned { fault refused.turned_range t ≡ Some (at kind.BadRange y) }
    ensures outside { fault (five (bit a 4)) t ≡ Some (at kind.BadRange a) }
    ensures against { fault (five (part a 0 3)) t ≡ Some (at kind.BadRange a) }
    ensures scalar { fault refused.scalar_select t ≡ Some (at kind.BadRange a) }
    ensures connected { fault refused.connected_select t ≡ Some (at kind.BadRange a) }
    ensures event { fault refused.event_select t ≡ Some (at kind.BadRange clk) }
    ensures condition { fault refused.condition_select t ≡ Some (at kind.BadRange a) }
    ensures inner { fault refused.inner_select t ≡ Some (at kind.BadRange a) }
{}

/// Limits, each reached and passed by one: 1,024 bits of a net, 65,536 bits of an expression. An expression comes before its
/// parts and names the module.
pub fn sizes_refused()
    ensures net { map (λ (n : ℕ). bad_range (vector n)) (1023 ∷ 1024 ∷ []) ≡ None ∷ Some z ∷ [] }
    ensures repeat { map (λ (n : ℕ). bad_range (repeats n)) (1 ∷ 0 ∷ 65536 ∷ 65537 ∷ []) ≡
        None ∷ Some t ∷ None ∷ Some t ∷ [] }
    ensures before_declaration { map (λ (n : ℕ). bad_range (used_vector n)) (65535 ∷ 65536 ∷ []) ≡
        Some z ∷ Some t ∷ [] }
    ensures sum { bad_range refused.large_sum ≡ Some t }
    ensures empty { fault refused.empty_repeat t ≡ Some (at kind.BadRange t) }
{}

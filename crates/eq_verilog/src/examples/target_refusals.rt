//! Refusals of targets, connections and terminals. t is the top of each design.
ghost use Rattle.std.specs.Prelude.{◌≡◌, Some, None};
ghost use Rattle.eq_verilog.specs.declared.refusal.ElabKind.TheVariants as kind;
ghost use Rattle.eq_verilog.specs.Refusals.{fault, at};
ghost use Rattle.eq_verilog.specs.samples.Writing.{a, b, y, z, t, u};
ghost use Rattle.eq_verilog.specs.samples.Refused as refused;

/// What may not be driven, or not be set; a bit twice in one target; an output that is connected to no target.
pub fn targets_refused()
    ensures input { fault refused.input_target t ≡ Some (at kind.BadTarget a) }
    ensures reg { fault refused.reg_target t ≡ Some (at kind.BadTarget z) }
    ensures input_reg { fault refused.input_reg t ≡ Some (at kind.BadTarget a) }
    ensures reg_before { fault refused.reg_before t ≡ Some (at kind.BadTarget a) }
    ensures reg_behind { fault refused.reg_behind t ≡ Some (at kind.BadTarget b) }
    ensures set { fault refused.wire_set t ≡ Some (at kind.BadTarget y) }
    ensures begun { fault refused.wire_begun t ≡ Some (at kind.BadTarget y) }
    ensures twice { fault refused.bit_twice t ≡ Some (at kind.BadTarget y) }
    ensures second { fault refused.second_part t ≡ Some (at kind.BadTarget a) }
    ensures apart { fault refused.two_bits t ≡ None }
    ensures overlapping { fault refused.overlapping t ≡ Some (at kind.BadTarget y) }
    ensures terminal { fault refused.no_terminal t ≡ Some (at kind.BadTarget t) }
    ensures input_terminal { fault refused.input_terminal t ≡ None }
    ensures constant { fault refused.constant_output t ≡ Some (at kind.BadTarget t) }
    ensures reg_output { fault refused.reg_output t ≡ Some (at kind.BadTarget z) }
{}

/// Connections of strange ports, twice, or not as many as there are ports; terminals too few or too wide.
pub fn connections_refused()
    ensures strange { fault refused.strange_port t ≡ Some (at kind.BadConnection u) }
    ensures twice { fault refused.connected_twice t ≡ Some (at kind.BadConnection u) }
    ensures too_few { fault refused.too_few t ≡ Some (at kind.BadConnection u) }
    ensures too_many { fault refused.too_many t ≡ Some (at kind.BadConnection u) }
    ensures left_out { fault refused.left_out t ≡ None }
    ensures one_terminal { fault refused.one_terminal t ≡ Some (at kind.BadConnection u) }
    ensures wide_terminal { fault refused.wide_terminal t ≡ Some (at kind.BadConnection t) }
{}

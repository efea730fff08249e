//! When the ports of two designs fit: by name, in any order. Ports are told by their numbers in the header.
ghost use Rattle.std.specs.Prelude.{◌≡◌, true, false, [], ◌∷◌, Some, None};
ghost use Rattle.eq_verilog.specs.Designs.{design_of};
ghost use Rattle.eq_verilog.specs.samples.Writing.{t};
ghost use Rattle.eq_verilog.specs.samples.Assignments as assignment;
ghost use Rattle.eq_verilog.specs.samples.Clocking as clocking;
ghost use Rattle.eq_marks.specs.declared.ports.PortErr.TheVariants.{Missing, Direction, Width, Clock};
ghost use Rattle.eq_marks.specs.Ports.{port_fault};
ghost use Rattle.eq_marks.specs.samples.Comparing as comparing;

/// Ports that one side lacks, or that have another direction or width.
pub fn ports_refused()
    ensures same { port_fault (design_of comparing.wires t) (design_of comparing.wires t) ≡ None }
    ensures missing { port_fault (design_of comparing.more t) (design_of comparing.wires t) ≡
        Some (Missing true 1) }
    ensures missing_in_gold { port_fault (design_of comparing.wires t)
        (design_of comparing.more t) ≡ Some (Missing false 1) }
    ensures direction { port_fault (design_of comparing.wires t)
        (design_of comparing.reversed t) ≡ Some (Direction 0) }
    ensures width { port_fault (design_of comparing.wires t) (design_of comparing.wider t) ≡
        Some (Width 1) }
    ensures direction_first { port_fault (design_of comparing.wires t)
        (design_of comparing.two_inputs t) ≡ Some (Direction 1) }
    ensures other_order { port_fault (design_of comparing.wires t)
        (design_of comparing.turned t) ≡ None }
    ensures other_range { port_fault (design_of assignment.turned_whole t)
        (design_of assignment.straight t) ≡ None }
{}

/// Clocks of two names, and a clock that the other side takes as data. A side without clock may have the port.
pub fn clocks_refused()
    ensures same { port_fault (design_of (clocking.stored []) t)
        (design_of clocking.buffered_clock t) ≡ None }
    ensures two_names { port_fault (design_of (clocking.stored []) t)
        (design_of comparing.clocked_by_a t) ≡ Some (Clock 0) }
    ensures gold_named { port_fault (design_of comparing.clocked_by_a t)
        (design_of (clocking.stored []) t) ≡ Some (Clock 1) }
    ensures read { port_fault (design_of (clocking.stored []) t)
        (design_of clocking.reading_clock t) ≡ Some (Clock 0) }
    ensures read_in_gold { port_fault (design_of clocking.reading_clock t)
        (design_of (clocking.stored []) t) ≡ Some (Clock 0) }
    ensures as_output { port_fault (design_of (clocking.stored []) t)
        (design_of comparing.clock_out t) ≡ Some (Clock 0) }
    ensures ignored { port_fault (design_of (clocking.stored []) t)
        (design_of clocking.ignoring_clock t) ≡ None }
{}

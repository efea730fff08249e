//! Laws of the definitions. Each is the contract of a function that does nothing, and is cited by calling it.

ghost use Rattle.std.specs.Prelude.{◌≡◌, ℕ, List, All, None, Option, if◌then◌else◌, map};
ghost use Rattle.eq_net.specs.Net.{bits_of, IsNet, Parts, design_of as meaning_of};
ghost use Rattle.eq_verilog.specs.BitRefusals as refusals;
ghost use Rattle.eq_verilog.specs.Clocks.{takes_as_data};
ghost use Rattle.eq_verilog.specs.Designs.{clock_bit, copy_of, event_bit, is_output_bit, size, system_of, Flat};
ghost use Rattle.eq_verilog.specs.Firsts.{first_below, first_found};
ghost use Rattle.eq_marks.specs.Events.{first_astray, first_end, IsThere};
ghost use Rattle.eq_marks.specs.Missing.{is_missed};
ghost use Rattle.eq_marks.specs.Ports.{HasEachPortOf, port_fault, takes};
ghost use Rattle.eq_marks.specs.Told.{AreOf};

use eq_net::laws::{bits_stand_by_nets, words_make_a_system};

/// Where nothing is wrong with the ports, each netlist has each port of the other, which is what pairs of their bits ask for.
/// The proof stands in proofs/SamePorts.antt.
pub fn ports_that_fit()
    ensures gold { (gold gate : Parts) → IsNet gold → IsNet gate →
        port_fault (meaning_of gold) (meaning_of gate) ≡ None → HasEachPortOf gold gate }
    ensures gate { (gold gate : Parts) → IsNet gold → IsNet gate →
        port_fault (meaning_of gold) (meaning_of gate) ≡ None → HasEachPortOf gate gold }
{}

/// What is found of the parts of a netlist is so of a design that has their nets, drivers and plain copies. The proof stands
/// in proofs/Told.antt.
pub fn bits_by_parts()
    ensures missed { (n : Parts) (f : Flat) → AreOf n f →
        first_below (bits_of n.nets) (is_missed (meaning_of n)) ≡
        first_below (size f) (refusals.is_missed f) }
    ensures taken { (n : Parts) (f : Flat) (c : ℕ) → AreOf n f →
        first_below (bits_of n.nets) (takes (meaning_of n) c) ≡
        first_below (size f) (takes_as_data (system_of f) (copy_of f) (is_output_bit f) c) }
    ensures clock { (n : Parts) (f : Flat) (es : List (Option ℕ)) → AreOf n f →
        All (IsThere (bits_of n.nets)) es → es ≡ map event_bit f.processes →
        first_end (meaning_of n) es ≡ clock_bit f }
    ensures astray { (n : Parts) (f : Flat) (es : List (Option ℕ)) → AreOf n f →
        All (IsThere (bits_of n.nets)) es → es ≡ map event_bit f.processes →
        first_astray (meaning_of n) es ≡
        first_found (λ p. if refusals.is_event f p then None else event_bit p) f.processes }
{
    bits_stand_by_nets();
    words_make_a_system();
}

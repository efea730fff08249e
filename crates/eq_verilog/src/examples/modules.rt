//! What a module declares, and how the instances, nets and bits of a design stand in order.
ghost use Rattle.std.specs.Prelude.{◌≡◌, ℕ, true, false, map, length, List, [], ◌∷◌, Some, None, codes};
ghost use Rattle.eq_model.specs.Nets.{Net, inner, is_input, is_output, net_width, total_width};
ghost use Rattle.eq_verilog.specs.Scopes.{width};
ghost use Rattle.eq_verilog.specs.Declarations.{range_of, dir_of, is_reg, nets_in, regs_in};
ghost use Rattle.eq_verilog.specs.Hierarchy.{Path, reached, reached_below, module_names, paths};
ghost use Rattle.eq_verilog.specs.Nets.{full_names, bit_name, offset, module_scope};
ghost use Rattle.eq_verilog.specs.Designs.{flat_of, design_of};
ghost use Rattle.eq_verilog.specs.samples.Writing.{a, b, c, y, z, q, t, u, clk};
ghost use Rattle.eq_verilog.specs.samples.Hierarchies as hierarchy;
ghost use Rattle.eq_verilog.specs.samples.Assignments as assignment;
ghost use Rattle.eq_verilog.specs.samples.Clocking as clocking;

/// The nets of a module stand in the order of first mention: those of the header, then uses and declarations alike.
pub fn mentions()
    ensures order { nets_in hierarchy.used_before ≡ y ∷ b ∷ z ∷ a ∷ [] }
    ensures every_form { nets_in hierarchy.every_form ≡ map (λ (k : ℕ). k ∷ []) (0 ∷ 1 ∷ 2 ∷ 3 ∷ 4 ∷
        5 ∷ 6 ∷ 7 ∷ 8 ∷ 9 ∷ 10 ∷ 11 ∷ 12 ∷ 13 ∷ 14 ∷ 15 ∷ 16 ∷ 17 ∷ 18 ∷ 19 ∷ []) }
    ensures regs { regs_in hierarchy.used_before ≡ a ∷ [] }
    ensures ranges { map (range_of hierarchy.used_before) (y ∷ a ∷ c ∷ []) ≡
        None ∷ Some (1, 0) ∷ None ∷ [] }
    ensures directions { map (dir_of hierarchy.used_before) (y ∷ b ∷ z ∷ a ∷ []) ≡
        is_output ∷ is_input ∷ inner ∷ inner ∷ [] }
    ensures registers { map (is_reg hierarchy.used_before) (y ∷ z ∷ a ∷ []) ≡
        false ∷ false ∷ true ∷ [] }
    ensures offsets { map (module_scope hierarchy.used_before).first (y ∷ b ∷ z ∷ a ∷ []) ≡
        0 ∷ 1 ∷ 2 ∷ 3 ∷ [] }
    ensures widths { map (width (module_scope hierarchy.used_before)) (y ∷ a ∷ []) ≡ 1 ∷ 2 ∷ [] }
{}

/// Modules are visited depth first, each once, also where they contain one another.
pub fn visits()
    ensures order { module_names (reached hierarchy.round_about t) ≡ t ∷ b ∷ a ∷ c ∷ [] }
    ensures leaf { module_names (reached hierarchy.round_about c) ≡ c ∷ [] }
    ensures absent { module_names (reached hierarchy.round_about q) ≡ [] }
    ensures below { map (λ m. module_names (reached_below hierarchy.nested m)) hierarchy.nested ≡
        (hierarchy.pair ∷ codes "m" ∷ []) ∷ [] ∷ (codes "m" ∷ []) ∷ [] }
{}

/// Two levels of instances. The nets come by instance, a parent before its children; directions are those of the top.
pub fn instances()
    ensures paths { map (λ (p : Path). p.prefix) (paths hierarchy.nested t) ≡
        [] ∷ codes "u." ∷ codes "u.u." ∷ codes "u.v." ∷ [] }
    ensures names { full_names (flat_of hierarchy.nested t).nets ≡
        a ∷ y ∷ codes "u.a" ∷ codes "u.y" ∷ codes "u.z" ∷ codes "u.u.a" ∷ codes "u.u.y" ∷
        codes "u.v.a" ∷ codes "u.v.y" ∷ [] }
    ensures directions { map (λ (n : Net). n.dir) (flat_of hierarchy.nested t).nets ≡
        is_input ∷ is_output ∷ inner ∷ inner ∷ inner ∷ inner ∷ inner ∷ inner ∷ inner ∷ [] }
    ensures ports { (design_of hierarchy.nested t).ports ≡ a ∷ y ∷ [] }
{}

/// Bits stand by net, then by position. A bit's name has the declared index of its position, where its net has a range.
pub fn bits()
    ensures size { (design_of assignment.turned_whole t).bits ≡ 8 }
    ensures rising { map (bit_name (flat_of assignment.turned_whole t).nets) (4 ∷ 7 ∷ []) ≡
        codes "y[3]" ∷ codes "y[0]" ∷ [] }
    ensures falling { bit_name (flat_of assignment.turned_whole t).nets 1 ≡ codes "a[1]" }
    ensures scalar { bit_name (flat_of hierarchy.nested t).nets 6 ≡ codes "u.u.y" }
    ensures widths { map net_width (flat_of clocking.counter t).nets ≡ 1 ∷ 1 ∷ 4 ∷ 4 ∷ 1 ∷ [] }
    ensures made_up { map (λ (n : Net). n.automatic) (flat_of clocking.counter t).nets ≡
        false ∷ false ∷ false ∷ true ∷ false ∷ [] }
    ensures offsets { map (offset (flat_of clocking.counter t).nets) (clk ∷ q ∷ clocking.enq ∷ []) ≡
        0 ∷ 2 ∷ 10 ∷ [] }
{}

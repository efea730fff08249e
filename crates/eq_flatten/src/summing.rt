//! The equations of a design, in the order in which the code has them: those of all items, and those of all links.

ghost use Rattle.std.specs.Prelude.{◌≡◌, ◌++◌, ◌-◌, ℕ, List, Some, None, flat_map, length, map, suc};
ghost use Rattle.eq_model.specs.Nets.{Net};
ghost use Rattle.eq_net.specs.declared.types.NetInfo.{NetInfo};
ghost use Rattle.eq_net.specs.Nets.{net_of};
ghost use Rattle.eq_net.specs.Tree.{Tree};
ghost use Rattle.eq_verilog.specs.Trees.{Name, ModuleTree};
ghost use Rattle.eq_verilog.specs.Declarations.{nets_in};
ghost use Rattle.eq_verilog.specs.Hierarchy.{module_named, Path, paths_from, reached};
ghost use Rattle.eq_verilog.specs.Equations.{Equation, equations_of};
ghost use Rattle.eq_verilog.specs.Firsts.{first_again, first_found};
ghost use Rattle.eq_verilog.specs.ModuleRefusals.{recursive};
ghost use Rattle.eq_verilog.specs.Nets.{full_names};
ghost use Rattle.eq_flatten.specs.declared.driving.Slot.{Slot as SlotValue};
ghost use Rattle.eq_flatten.specs.declared.paths.Paths.{Paths as PathsValue};
ghost use Rattle.eq_flatten.specs.Equating.{AreDriven};
ghost use Rattle.eq_flatten.specs.Flat.{IsFlat};
ghost use Rattle.eq_flatten.specs.Paths.{links_from, top_path, HasPaths};
ghost use Rattle.eq_flatten.specs.Summing.{by_tables, link_at, own_at, AreAgreed, ComesToEnd};

use eq_verilog::laws::offsets_by_path;

/// Slots that speak of what the items of all paths drive by themselves, and behind that of the connections of all links,
/// speak of the equations of these paths. The proof stands in proofs/Alike.antt.
pub fn equations_by_links()
    ensures { (infos : List NetInfo) (words : List Tree) (slots : List SlotValue)
        (all : List ModuleTree) (nets : List Net) (k : ℕ) (top : Path) → ComesToEnd all k top →
        AreDriven infos words (flat_map (own_at nets) (paths_from all (suc k) top.prefix top.of)
        ++ flat_map (link_at all nets) (links_from all k top)) slots →
        AreDriven infos words (equations_of all nets (paths_from all (suc k) top.prefix top.of))
        slots }
{}

/// Slots that speak of equations speak of the same equations in scopes that say the same of their names. The proof stands in
/// proofs/Likened.antt.
pub fn equations_agree()
    ensures { (infos : List NetInfo) (words : List Tree) (slots : List SlotValue)
        (es fs : List Equation) → AreAgreed es fs → AreDriven infos words es slots →
        AreDriven infos words fs slots }
{}

/// Where no module that is reached stands in itself, fewer instances stand in one another than there are modules. The proof
/// stands in proofs/Ending.antt.
pub fn designs_end()
    ensures { (all : List ModuleTree) (top : Name) (m : ModuleTree) →
        module_named all top ≡ Some m → first_found (recursive all) (reached all top) ≡ None →
        ComesToEnd all (length all - 1) (top_path m) }
{}

/// Where full names are distinct, the equations by the tables of modules agree with those of the definitions, path by path
/// and link by link. The proof stands in proofs/Tabled.antt.
pub fn equations_by_tables()
    ensures { (all : List ModuleTree) (top : Path) (found : PathsValue) (nets : List NetInfo)
        (firsts : List ℕ) → HasPaths all top found →
        IsFlat found.paths.items (length found.paths.items) nets firsts →
        first_again (full_names (map net_of nets)) ≡ None →
        AreAgreed (by_tables nets (map nets_in all) found.paths.items found.links.items firsts)
        (flat_map (own_at (map net_of nets))
        (paths_from all (suc (length all - 1)) top.prefix top.of)
        ++ flat_map (link_at all (map net_of nets)) (links_from all (length all - 1) top)) }
{
    offsets_by_path();
}

//! A design laid out: its modules' tables, its instances, their nets, and the numbers of the nets' first bits.

ghost use Rattle.std.specs.Prelude.{◌≡◌, None, All, IfOk, map};
ghost use Rattle.eq_names.specs.Name.{IsNameByte};
ghost use Rattle.eq_verilog.specs.Trees.{module_tree};
ghost use Rattle.eq_verilog.specs.Hierarchy.{module_named, module_names};
ghost use Rattle.eq_analysis.specs.Tabling.{trees_at};
ghost use Rattle.eq_layout.specs.Laying.{LaysOut};

use eq_analysis::Table;
use eq_base::Memory;
use eq_flatten::{FlatNets, Owned, Paths, Starts, all_owned, all_paths, flat_nets, starts_of};
use eq_names::{Name, NameTable};
use eq_vparse::Module;
use std::alloc::Global;

/// A design laid out.
#[derive(Drop)]
pub struct Layout<'a> {
    /// Of each module of all sources, reached or not.
    pub tables: Vec<Table<'a>>,
    /// The nets of each module as if it stood alone.
    pub owned: Vec<Owned>,
    /// The instances, and how each but the top is written in another.
    pub found: Paths<'a>,
    /// The nets of all instances.
    pub flat: FlatNets,
    /// The numbers of the nets' first bits.
    pub starts: Starts,
}

/// Lays out the design with this top. Takes the time and memory of its nets, so whether it is too large is looked at before.
pub fn lay_out<'a>(
    alloc: Global,
    names: &NameTable,
    modules: &[&'a Module],
    tables: Vec<Table<'a>>,
    top: &Name,
) -> Result<Layout<'a>, Memory>
    requires named { names.now ≡ module_names (map (λ m. module_tree m.now) modules.now) }
    requires tables { trees_at tables.items ≡ map (λ m. module_tree m.now) modules.now }
    requires there { module_named (map (λ m. module_tree m.now) modules.now) top.now ≡ None → ⊥ }
    ensures ok { IfOk result (λ layout.
        LaysOut (map (λ m. module_tree m.now) modules.now) top.now layout) }
{
    let Some(found) = all_paths(alloc, names, modules, top)? else {
        unreachable!()
    };
    let owned = all_owned(alloc, &tables)?;
    let flat = flat_nets(alloc, &found.paths, &owned)?;
    let starts = starts_of(alloc, &flat.nets)?;
    Ok(Layout {
        tables,
        owned,
        found,
        flat,
        starts,
    })
}

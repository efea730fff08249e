//! The tables of all modules, in the order of the modules.

ghost use Rattle.std.specs.Prelude.{◌≡◌, ℕ, List, map, slice_get, option_map, IfOk};
ghost use Rattle.eq_verilog.specs.Trees.{ModuleTree, module_tree};
ghost use Rattle.eq_verilog.specs.Hierarchy.{module_names, module_named, reached};
ghost use Rattle.eq_analysis.specs.Tabling.{tree_at, trees_at, AreNamed};

use crate::tables::{Table, table_of};
use eq_base::Memory;
use eq_names::{Name, NameTable};
use eq_verilog::laws::modules_by_number;
use eq_vparse::Module;
use std::alloc::Global;

/// A table for each module.
pub fn all_tables<'a>(alloc: Global, modules: &[&'a Module]) -> Result<Vec<Table<'a>>, Memory>
    ensures { IfOk result (λ tables.
        trees_at tables.items ≡ map (λ m. module_tree m.now) modules.now) }
{
    let mut tables = Vec::new(alloc);
    for module in modules {
        let table = table_of(alloc, module)?;
        tables.push(table)?;
    }
    Ok(tables)
}

/// The table at a place.
pub fn table_at<'t, 'a>(tables: &'t [Table<'a>], place: u32) -> Option<&'t Table<'a>>
    ensures { option_map (λ t. tree_at t.now) result ≡ slice_get (trees_at tables.now) place }
{
    tables.get(place as usize)
}

/// The table of the module of a name.
pub fn table_named<'t, 'a>(
    names: &NameTable,
    tables: &'t [Table<'a>],
    name: &Name,
) -> Option<&'t Table<'a>>
    requires named { names.now ≡ module_names (trees_at tables.now) }
    ensures { option_map (λ t. tree_at t.now) result ≡
        module_named (trees_at tables.now) name.now }
{
    modules_by_number();
    match names.find(name.bytes()) {
        Some(place) => table_at(tables, place),
        None => None,
    }
}

/// What is reached from a module is found by its name. The proof stands in proofs/NamedLemmas.antt.
pub fn reached_by_name()
    ensures { (all : List ModuleTree) (top : List ℕ) → AreNamed all (reached all top) }
{}

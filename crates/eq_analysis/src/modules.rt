//! The modules of all sources, and their names.

ghost use Rattle.std.specs.Prelude.{◌≡◌, ◌++◌, [], None, map, slice_get, option_map, option_copied, IfOk, OnOk};
ghost use Rattle.eq_verilog.specs.Trees.{module_tree, modules_of};
ghost use Rattle.eq_verilog.specs.Hierarchy.{module_names, module_named};
ghost use Rattle.eq_verilog.specs.ModuleRefusals as spec;

use crate::again::first_again;
use eq_base::Memory;
use eq_names::{Name, NameTable};
use eq_verilog::laws::modules_by_number;
use eq_vparse::{Module, Source};
use std::alloc::Global;

/// Puts modules behind others.
fn add_modules<'a>(all: &mut Vec<&'a Module>, more: &'a [Module]) -> Result<(), Memory>
    ensures { OnOk result (map (λ m. module_tree m.now) all.new.items ≡
        map (λ m. module_tree m.now) all.old.items ++ map module_tree more.now) }
{
    for module in more {
        all.push(module)?;
    }
    Ok(())
}

/// The modules of all sources, in order.
pub fn all_modules(alloc: Global, sources: &[Source]) -> Result<Vec<&Module>, Memory>
    ensures { IfOk result (λ all.
        map (λ m. module_tree m.now) all.items ≡ modules_of sources.now) }
{
    let mut all = Vec::new(alloc);
    for source in sources {
        add_modules(&mut all, source.modules.as_slice())?;
    }
    Ok(all)
}

/// The names of modules.
pub fn names_of<'a>(alloc: Global, modules: &[&'a Module]) -> Result<Vec<&'a Name>, Memory>
    ensures { IfOk result (λ names.
        map (λ n. n.now) names.items ≡ module_names (map (λ m. module_tree m.now) modules.now)) }
{
    let mut names = Vec::new(alloc);
    for module in modules {
        names.push(&module.name)?;
    }
    Ok(names)
}

/// The name of the first module that has an earlier one's name. Where there is none, the number of each name is the place
/// of its module.
pub fn duplicate_module<'a>(
    alloc: Global,
    names: &mut NameTable,
    modules: &[&'a Module],
) -> Result<Option<&'a Name>, Memory>
    requires empty { names.old ≡ [] }
    ensures found { IfOk result (λ found. option_copied found ≡
        spec.duplicate_module (map (λ m. module_tree m.now) modules.now)) }
    ensures names { IfOk result (λ found. found ≡ None →
        names.new ≡ module_names (map (λ m. module_tree m.now) modules.now)) }
{
    let all = names_of(alloc, modules)?;
    first_again(names, all.as_slice())
}

/// The module at a place.
fn module_at<'a>(modules: &[&'a Module], place: u32) -> Option<&'a Module>
    ensures { option_map (λ m. module_tree m.now) result ≡
        slice_get (map (λ m. module_tree m.now) modules.now) place }
{
    match modules.get(place as usize) {
        Some(module) => Some(*module),
        None => None,
    }
}

/// The module of a name.
pub fn module_named<'a>(
    names: &NameTable,
    modules: &[&'a Module],
    name: &Name,
) -> Option<&'a Module>
    requires named { names.now ≡ module_names (map (λ m. module_tree m.now) modules.now) }
    ensures { option_map (λ m. module_tree m.now) result ≡
        module_named (map (λ m. module_tree m.now) modules.now) name.now }
{
    modules_by_number();
    match names.find(name.bytes()) {
        Some(place) => module_at(modules, place),
        None => None,
    }
}

/// The top's name, where no module has it.
pub fn no_top<'a>(names: &NameTable, modules: &[&Module], top: &'a Name) -> Option<&'a Name>
    requires named { names.now ≡ module_names (map (λ m. module_tree m.now) modules.now) }
    ensures { option_copied result ≡
        spec.no_top (map (λ m. module_tree m.now) modules.now) top.now }
{
    match module_named(names, modules, top) {
        Some(_) => None,
        None => Some(top),
    }
}

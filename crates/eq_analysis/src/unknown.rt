//! Instances whose module isn't there.

ghost use Rattle.std.specs.Prelude.{◌≡◌, map, option_copied};
ghost use Rattle.eq_verilog.specs.Trees.{module_tree, item_tree};
ghost use Rattle.eq_verilog.specs.Hierarchy.{module_names};
ghost use Rattle.eq_verilog.specs.Firsts.{first_found};
ghost use Rattle.eq_verilog.specs.ModuleRefusals as spec;
ghost use Rattle.eq_analysis.specs.inner.Unknowing.{unknown_item};

use crate::modules::no_top;
use crate::visiting::instantiated;
use eq_names::{Name, NameTable};
use eq_vparse::{Item, Module};

/// The module of an item's instance, where it isn't there.
fn unknown_in_item<'a>(names: &NameTable, modules: &[&Module], item: &'a Item) -> Option<&'a Name>
    requires named { names.now ≡ module_names (map (λ m. module_tree m.now) modules.now) }
    ensures { option_copied result ≡
        unknown_item (map (λ m. module_tree m.now) modules.now) (item_tree item.now) }
{
    match instantiated(item) {
        Some(name) => no_top(names, modules, name),
        None => None,
    }
}

/// The first module of an instance among items that isn't there.
fn unknown_in_items<'a>(
    names: &NameTable,
    modules: &[&Module],
    items: &'a [Item],
) -> Option<&'a Name>
    requires named { names.now ≡ module_names (map (λ m. module_tree m.now) modules.now) }
    ensures { option_copied result ≡ first_found
        (λ i. unknown_item (map (λ m. module_tree m.now) modules.now) (item_tree i)) items.now }
{
    for item in items {
        if let Some(name) = unknown_in_item(names, modules, item) {
            return Some(name);
        }
    }
    None
}

/// The first module of a module's instances that isn't there.
fn unknown_in_module<'a>(
    names: &NameTable,
    modules: &[&Module],
    within: &'a Module,
) -> Option<&'a Name>
    requires named { names.now ≡ module_names (map (λ m. module_tree m.now) modules.now) }
    ensures { option_copied result ≡ spec.unknown_module
        (map (λ m. module_tree m.now) modules.now) (module_tree within.now) }
{
    unknown_in_items(names, modules, within.items.as_slice())
}

/// The first module of an instance of these modules that isn't there.
pub fn unknown_module<'a>(
    names: &NameTable,
    modules: &[&Module],
    reached: &[&'a Module],
) -> Option<&'a Name>
    requires named { names.now ≡ module_names (map (λ m. module_tree m.now) modules.now) }
    ensures { option_copied result ≡ first_found
        (spec.unknown_module (map (λ m. module_tree m.now) modules.now))
        (map (λ m. module_tree m.now) reached.now) }
{
    for module in reached {
        if let Some(name) = unknown_in_module(names, modules, module) {
            return Some(name);
        }
    }
    None
}

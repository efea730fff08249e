//! Modules that instantiate themselves, directly or through others.

ghost use Rattle.std.specs.Prelude.{◌≡◌, map, option_copied, IfOk};
ghost use Rattle.eq_verilog.specs.Trees.{module_tree};
ghost use Rattle.eq_verilog.specs.Declarations.{has};
ghost use Rattle.eq_verilog.specs.Hierarchy.{module_names};
ghost use Rattle.eq_verilog.specs.Firsts.{first_found};
ghost use Rattle.eq_verilog.specs.ModuleRefusals as spec;
ghost use Rattle.eq_analysis.specs.inner.Climbing.{NumbersClimb};

use crate::hierarchy::{numbers_of, stands_apart};
use crate::visiting::reached_below;
use eq_base::Memory;
use eq_names::{Name, NameTable};
use eq_verilog::laws::modules_by_number;
use eq_vparse::Module;
use std::alloc::Global;

/// Whether a module has a name.
fn is_among(modules: &[&Module], name: &Name) -> bool
    ensures { result ≡ has (module_names (map (λ m. module_tree m.now) modules.now)) name.now }
{
    for module in modules {
        if name.bytes() == module.name.bytes() {
            return true;
        }
    }
    false
}

/// The module's name, where its instances lead back to it. A module that the numbers set apart takes no walk.
fn recursive_at<'a>(
    alloc: Global,
    names: &NameTable,
    modules: &[&'a Module],
    numbers: &[usize],
    at: &'a Module,
) -> Result<Option<&'a Name>, Memory>
    requires named { names.now ≡ module_names (map (λ m. module_tree m.now) modules.now) }
    requires climb { NumbersClimb numbers.now names.now (map (λ m. module_tree m.now) modules.now) }
    ensures { IfOk result (λ found. option_copied found ≡
        spec.recursive (map (λ m. module_tree m.now) modules.now) (module_tree at.now)) }
{
    modules_by_number();
    if stands_apart(names, numbers, at) {
        return Ok(None);
    }
    let below = reached_below(alloc, names, modules, at)?;
    if is_among(below.as_slice(), &at.name) {
        Ok(Some(&at.name))
    } else {
        Ok(None)
    }
}

/// The first of these modules whose instances lead back to it.
pub fn recursive<'a>(
    alloc: Global,
    names: &NameTable,
    modules: &[&'a Module],
    reached: &[&'a Module],
) -> Result<Option<&'a Name>, Memory>
    requires named { names.now ≡ module_names (map (λ m. module_tree m.now) modules.now) }
    ensures { IfOk result (λ found. option_copied found ≡ first_found
        (spec.recursive (map (λ m. module_tree m.now) modules.now))
        (map (λ m. module_tree m.now) reached.now)) }
{
    let numbers = numbers_of(alloc, names, modules)?;
    for module in reached {
        if let Some(name) = recursive_at(alloc, names, modules, numbers.as_slice(), module)? {
            return Ok(Some(name));
        }
    }
    Ok(None)
}

//! The refusals of one module, over all modules that are reached.

ghost use Rattle.std.specs.Prelude.{◌≡◌, Some, map, option_copied, IfOk};
ghost use Rattle.eq_verilog.specs.Trees.{module_tree};
ghost use Rattle.eq_verilog.specs.Hierarchy.{module_names, module_named};
ghost use Rattle.eq_verilog.specs.Firsts.{first_found};
ghost use Rattle.eq_verilog.specs.ModuleRefusals as spec;
ghost use Rattle.eq_verilog.specs.TargetRefusals as targets;
ghost use Rattle.eq_analysis.specs.Tabling.{trees_at, AreNamed};

use crate::assigning::bad_target;
use crate::connections::bad_connection;
use crate::duplicates::duplicate_name;
use crate::mentions::{bad_range, unknown_name};
use crate::tabled::table_named;
use crate::tables::Table;
use eq_base::Memory;
use eq_names::{Name, NameTable};
use eq_vparse::Module;
use std::alloc::Global;

/// The name that a module gives twice.
fn duplicate_name_in<'a>(
    alloc: Global,
    names: &NameTable,
    tables: &[Table<'a>],
    of: &Module,
) -> Result<Option<&'a Name>, Memory>
    requires named { names.now ≡ module_names (trees_at tables.now) }
    requires there { module_named (trees_at tables.now) of.now.name ≡ Some (module_tree of.now) }
    ensures { IfOk result (λ found. option_copied found ≡
        spec.duplicate_name (module_tree of.now)) }
{
    match table_named(names, tables, &of.name) {
        Some(table) => duplicate_name(alloc, table),
        None => Ok(None),
    }
}

/// The first module's with a duplicate name.
pub fn first_duplicate_name<'a>(
    alloc: Global,
    names: &NameTable,
    tables: &[Table<'a>],
    order: &[&Module],
) -> Result<Option<&'a Name>, Memory>
    requires named { names.now ≡ module_names (trees_at tables.now) }
    requires found { AreNamed (trees_at tables.now) (map (λ m. module_tree m.now) order.now) }
    ensures { IfOk result (λ found. option_copied found ≡
        first_found spec.duplicate_name (map (λ m. module_tree m.now) order.now)) }
{
    for module in order {
        if let Some(name) = duplicate_name_in(alloc, names, tables, module)? {
            return Ok(Some(name));
        }
    }
    Ok(None)
}

/// The name that a module doesn't know.
fn unknown_name_in<'a>(names: &NameTable, tables: &[Table<'a>], of: &Module) -> Option<&'a Name>
    requires named { names.now ≡ module_names (trees_at tables.now) }
    requires there { module_named (trees_at tables.now) of.now.name ≡ Some (module_tree of.now) }
    ensures { option_copied result ≡
        spec.unknown_name (module_tree of.now) }
{
    match table_named(names, tables, &of.name) {
        Some(table) => unknown_name(table),
        None => None,
    }
}

/// The first module's with an unknown name.
pub fn first_unknown_name<'a>(
    names: &NameTable,
    tables: &[Table<'a>],
    order: &[&Module],
) -> Option<&'a Name>
    requires named { names.now ≡ module_names (trees_at tables.now) }
    requires found { AreNamed (trees_at tables.now) (map (λ m. module_tree m.now) order.now) }
    ensures { option_copied result ≡
        first_found spec.unknown_name (map (λ m. module_tree m.now) order.now) }
{
    for module in order {
        if let Some(name) = unknown_name_in(names, tables, module) {
            return Some(name);
        }
    }
    None
}

/// What isn't in range in a module.
fn bad_range_in<'a>(names: &NameTable, tables: &[Table<'a>], of: &Module) -> Option<&'a Name>
    requires named { names.now ≡ module_names (trees_at tables.now) }
    requires there { module_named (trees_at tables.now) of.now.name ≡ Some (module_tree of.now) }
    ensures { option_copied result ≡
        spec.bad_range (module_tree of.now) }
{
    match table_named(names, tables, &of.name) {
        Some(table) => bad_range(table),
        None => None,
    }
}

/// The first module's with something that isn't in range.
pub fn first_bad_range<'a>(
    names: &NameTable,
    tables: &[Table<'a>],
    order: &[&Module],
) -> Option<&'a Name>
    requires named { names.now ≡ module_names (trees_at tables.now) }
    requires found { AreNamed (trees_at tables.now) (map (λ m. module_tree m.now) order.now) }
    ensures { option_copied result ≡
        first_found spec.bad_range (map (λ m. module_tree m.now) order.now) }
{
    for module in order {
        if let Some(name) = bad_range_in(names, tables, module) {
            return Some(name);
        }
    }
    None
}

/// The target of a module that is wrong.
fn bad_target_in<'a>(
    alloc: Global,
    names: &NameTable,
    tables: &[Table<'a>],
    of: &Module,
) -> Result<Option<&'a Name>, Memory>
    requires named { names.now ≡ module_names (trees_at tables.now) }
    requires there { module_named (trees_at tables.now) of.now.name ≡ Some (module_tree of.now) }
    ensures { IfOk result (λ found. option_copied found ≡
        targets.bad_target (trees_at tables.now) (module_tree of.now)) }
{
    match table_named(names, tables, &of.name) {
        Some(table) => bad_target(alloc, names, tables, table),
        None => Ok(None),
    }
}

/// The first module's with a target that is wrong.
pub fn first_bad_target<'a>(
    alloc: Global,
    names: &NameTable,
    tables: &[Table<'a>],
    order: &[&Module],
) -> Result<Option<&'a Name>, Memory>
    requires named { names.now ≡ module_names (trees_at tables.now) }
    requires found { AreNamed (trees_at tables.now) (map (λ m. module_tree m.now) order.now) }
    ensures { IfOk result (λ found. option_copied found ≡
        first_found (targets.bad_target (trees_at tables.now))
        (map (λ m. module_tree m.now) order.now)) }
{
    for module in order {
        if let Some(name) = bad_target_in(alloc, names, tables, module)? {
            return Ok(Some(name));
        }
    }
    Ok(None)
}

/// The instance or gate of a module that doesn't fit.
fn bad_connection_in<'a>(
    alloc: Global,
    names: &NameTable,
    tables: &[Table<'a>],
    of: &Module,
) -> Result<Option<&'a Name>, Memory>
    requires named { names.now ≡ module_names (trees_at tables.now) }
    requires there { module_named (trees_at tables.now) of.now.name ≡ Some (module_tree of.now) }
    ensures { IfOk result (λ found. option_copied found ≡
        targets.bad_connection (trees_at tables.now) (module_tree of.now)) }
{
    match table_named(names, tables, &of.name) {
        Some(table) => bad_connection(alloc, names, tables, table),
        None => Ok(None),
    }
}

/// The first module's with an instance or a gate that doesn't fit.
pub fn first_bad_connection<'a>(
    alloc: Global,
    names: &NameTable,
    tables: &[Table<'a>],
    order: &[&Module],
) -> Result<Option<&'a Name>, Memory>
    requires named { names.now ≡ module_names (trees_at tables.now) }
    requires found { AreNamed (trees_at tables.now) (map (λ m. module_tree m.now) order.now) }
    ensures { IfOk result (λ found. option_copied found ≡
        first_found (targets.bad_connection (trees_at tables.now))
        (map (λ m. module_tree m.now) order.now)) }
{
    for module in order {
        if let Some(name) = bad_connection_in(alloc, names, tables, module)? {
            return Ok(Some(name));
        }
    }
    Ok(None)
}

//! The refusals of modules in their order.

ghost use Rattle.std.specs.Prelude.{◌≡◌, [], None, map, option_map, IfOk};
ghost use Rattle.eq_verilog.specs.Trees.{module_tree};
ghost use Rattle.eq_verilog.specs.Hierarchy.{module_names, reached as reached_of};
ghost use Rattle.eq_verilog.specs.Firsts.{first_of};
ghost use Rattle.eq_verilog.specs.Refusals.{module_faults};
ghost use Rattle.eq_analysis.specs.Ordering.{refusal_of, Tells};
ghost use Rattle.eq_analysis.specs.Tabling.{trees_at, AreNamed};
ghost use Rattle.eq_analysis.specs.inner.Staging.{names_faults, hierarchy_faults, range_faults, target_faults, table_faults, reached_faults};

use crate::faults::{
    first_bad_connection, first_bad_range, first_bad_target, first_duplicate_name,
    first_unknown_name,
};
use crate::modules::{duplicate_module, no_top};
use crate::recursion::recursive;
use crate::tabled::{all_tables, reached_by_name};
use crate::tables::Table;
use crate::unknown::unknown_module;
use crate::visiting::reached;
use eq_base::Memory;
use eq_names::{Name, NameTable};
use eq_verilog::ElabKind;
use eq_vparse::Module;
use std::alloc::Global;

/// What is wrong, and the name that tells where.
#[derive(Drop)]
pub struct Fault<'a> {
    pub kind: ElabKind,
    pub name: &'a Name,
}

/// Modules of which nothing is refused: their names, each at its module's place, and their tables.
#[derive(Drop)]
pub struct Tabled<'a> {
    pub names: NameTable,
    pub tables: Vec<Table<'a>>,
}

/// Two modules of one name, or no top. Where neither is, the table has the modules' names.
fn names_fault<'a>(
    alloc: Global,
    names: &mut NameTable,
    modules: &[&'a Module],
    top: &'a Name,
) -> Result<Option<Fault<'a>>, Memory>
    requires empty { names.old ≡ [] }
    ensures found { IfOk result (λ found. option_map refusal_of found ≡ first_of
        (names_faults (map (λ m. module_tree m.now) modules.now) top.now)) }
    ensures names { IfOk result (λ found. found ≡ None →
        names.new ≡ module_names (map (λ m. module_tree m.now) modules.now)) }
{
    if let Some(name) = duplicate_module(alloc, names, modules)? {
        return Ok(Some(Fault {
            kind: ElabKind::DuplicateModule,
            name,
        }));
    }
    match no_top(names, modules, top) {
        Some(name) => Ok(Some(Fault {
            kind: ElabKind::NoTop,
            name,
        })),
        None => Ok(None),
    }
}

/// A module that isn't there, or one that instantiates itself.
fn hierarchy_fault<'a>(
    alloc: Global,
    names: &NameTable,
    modules: &[&'a Module],
    order: &[&'a Module],
) -> Result<Option<Fault<'a>>, Memory>
    requires named { names.now ≡ module_names (map (λ m. module_tree m.now) modules.now) }
    ensures { IfOk result (λ found. option_map refusal_of found ≡ first_of
        (hierarchy_faults (map (λ m. module_tree m.now) modules.now)
        (map (λ m. module_tree m.now) order.now))) }
{
    if let Some(name) = unknown_module(names, modules, order) {
        return Ok(Some(Fault {
            kind: ElabKind::UnknownModule,
            name,
        }));
    }
    match recursive(alloc, names, modules, order)? {
        Some(name) => Ok(Some(Fault {
            kind: ElabKind::Recursive,
            name,
        })),
        None => Ok(None),
    }
}

/// The first name that stands twice or isn't known, or what isn't in range.
fn range_fault<'a>(
    alloc: Global,
    names: &NameTable,
    tables: &[Table<'a>],
    order: &[&Module],
) -> Result<Option<Fault<'a>>, Memory>
    requires named { names.now ≡ module_names (trees_at tables.now) }
    requires found { AreNamed (trees_at tables.now) (map (λ m. module_tree m.now) order.now) }
    ensures { IfOk result (λ found. option_map refusal_of found ≡
        first_of (range_faults (map (λ m. module_tree m.now) order.now))) }
{
    if let Some(name) = first_duplicate_name(alloc, names, tables, order)? {
        return Ok(Some(Fault {
            kind: ElabKind::DuplicateName,
            name,
        }));
    }
    if let Some(name) = first_unknown_name(names, tables, order) {
        return Ok(Some(Fault {
            kind: ElabKind::UnknownName,
            name,
        }));
    }
    match first_bad_range(names, tables, order) {
        Some(name) => Ok(Some(Fault {
            kind: ElabKind::BadRange,
            name,
        })),
        None => Ok(None),
    }
}

/// The first target that is wrong, or instance or gate that doesn't fit.
fn target_fault<'a>(
    alloc: Global,
    names: &NameTable,
    tables: &[Table<'a>],
    order: &[&Module],
) -> Result<Option<Fault<'a>>, Memory>
    requires named { names.now ≡ module_names (trees_at tables.now) }
    requires found { AreNamed (trees_at tables.now) (map (λ m. module_tree m.now) order.now) }
    ensures { IfOk result (λ found. option_map refusal_of found ≡ first_of
        (target_faults (trees_at tables.now) (map (λ m. module_tree m.now) order.now))) }
{
    if let Some(name) = first_bad_target(alloc, names, tables, order)? {
        return Ok(Some(Fault {
            kind: ElabKind::BadTarget,
            name,
        }));
    }
    match first_bad_connection(alloc, names, tables, order)? {
        Some(name) => Ok(Some(Fault {
            kind: ElabKind::BadConnection,
            name,
        })),
        None => Ok(None),
    }
}

/// What is wrong in modules, by their tables.
#[tactic(auto, using(crate::proofs::FirstLemmas::after_three))]
fn table_fault<'a>(
    alloc: Global,
    names: &NameTable,
    tables: &[Table<'a>],
    order: &[&Module],
) -> Result<Option<Fault<'a>>, Memory>
    requires named { names.now ≡ module_names (trees_at tables.now) }
    requires found { AreNamed (trees_at tables.now) (map (λ m. module_tree m.now) order.now) }
    ensures { IfOk result (λ found. option_map refusal_of found ≡ first_of
        (table_faults (trees_at tables.now) (map (λ m. module_tree m.now) order.now))) }
{
    match range_fault(alloc, names, tables, order)? {
        Some(fault) => Ok(Some(fault)),
        None => target_fault(alloc, names, tables, order),
    }
}

/// The refusal of modules that are there, or else their tables.
fn of_order<'a>(
    alloc: Global,
    names: NameTable,
    modules: &[&'a Module],
    order: &[&Module],
) -> Result<Result<Tabled<'a>, Fault<'a>>, Memory>
    requires named { names ≡ module_names (map (λ m. module_tree m.now) modules.now) }
    requires found { AreNamed (map (λ m. module_tree m.now) modules.now)
        (map (λ m. module_tree m.now) order.now) }
    ensures { IfOk result (Tells (map (λ m. module_tree m.now) modules.now) (table_faults
        (map (λ m. module_tree m.now) modules.now) (map (λ m. module_tree m.now) order.now))) }
{
    let tables = all_tables(alloc, modules)?;
    match table_fault(alloc, &names, tables.as_slice(), order)? {
        Some(fault) => Ok(Err(fault)),
        None => Ok(Ok(Tabled { names, tables })),
    }
}

/// The refusal of modules each of its own name, or else their tables.
#[tactic(auto, using(crate::proofs::FirstLemmas::after_two))]
fn of_names<'a>(
    alloc: Global,
    names: NameTable,
    modules: &[&'a Module],
    top: &'a Name,
) -> Result<Result<Tabled<'a>, Fault<'a>>, Memory>
    requires named { names ≡ module_names (map (λ m. module_tree m.now) modules.now) }
    ensures { IfOk result (Tells (map (λ m. module_tree m.now) modules.now) (reached_faults
        (map (λ m. module_tree m.now) modules.now)
        (reached_of (map (λ m. module_tree m.now) modules.now) top.now))) }
{
    let order = reached(alloc, &names, modules, top)?;
    reached_by_name();
    match hierarchy_fault(alloc, &names, modules, order.as_slice())? {
        Some(fault) => Ok(Err(fault)),
        None => of_order(alloc, names, modules, order.as_slice()),
    }
}

/// The first of the nine refusals of modules, or else what was found out of them.
#[tactic(auto, using(crate::proofs::FirstLemmas::after_two))]
pub fn check_modules<'a>(
    alloc: Global,
    modules: &[&'a Module],
    top: &'a Name,
) -> Result<Result<Tabled<'a>, Fault<'a>>, Memory>
    ensures { IfOk result (Tells (map (λ m. module_tree m.now) modules.now) (module_faults
        (map (λ m. module_tree m.now) modules.now) top.now
        (reached_of (map (λ m. module_tree m.now) modules.now) top.now))) }
{
    let mut names = NameTable::new(alloc)?;
    match names_fault(alloc, &mut names, modules, top)? {
        Some(fault) => Ok(Err(fault)),
        None => of_names(alloc, names, modules, top),
    }
}

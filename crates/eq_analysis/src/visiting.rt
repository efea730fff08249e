//! The modules that are reached from the top, in the order of first visit. The walk is depth first; its stack holds the
//! visits that are still to be made, the next one last.

ghost use Rattle.std.specs.Prelude.{◌≡◌, ◌++◌, ◌∷◌, ℕ, [], List, map, filter_map, option_map, option_copied, length, IfOk, OnOk, IfSome, IfNone};
ghost use Rattle.eq_names.specs.Tables.{with_name};
ghost use Rattle.eq_verilog.specs.Trees.{Name as NameBytes, ModuleTree, module_tree, item_tree};
ghost use Rattle.eq_verilog.specs.Hierarchy.{Instance, instance_in, instances, module_names, visit};
ghost use Rattle.eq_verilog.specs.Hierarchy as spec;
ghost use Rattle.eq_analysis.specs.inner.Visiting.{after, with_item, with_all, IsFirst, IsIdle, Enters};

use crate::again::{has_name, meets};
use crate::modules::module_named;
use eq_base::Memory;
use eq_names::{Name, NameTable};
use eq_vparse::{Item, Module};
use std::alloc::Global;

/// A visit to the module of a name, in which at most so many modules may stand in one another.
#[derive(Drop)]
pub struct Visit<'a> {
    pub name: &'a Name,
    pub left: usize,
}

/// The module that an item instantiates.
pub fn instantiated(item: &Item) -> Option<&Name>
    ensures { option_copied result ≡
        option_map (λ (i : Instance). i.module_name) (instance_in (item_tree item.now)) }
{
    match item {
        Item::Instance { module, .. } => Some(module),
        Item::Decl { .. } => None,
        Item::Assign { .. } => None,
        Item::Gate { .. } => None,
        Item::Always { .. } => None,
        Item::Init { .. } => None,
    }
}

/// Puts the visit to an instance's module on the stack.
fn add_instance<'a>(stack: &mut Vec<Visit<'a>>, item: &'a Item, left: usize) -> Result<(), Memory>
    ensures { OnOk result ((all seen : List ModuleTree) → after all seen stack.new.items ≡
        after all (with_item all left seen (item_tree item.now)) stack.old.items) }
{
    match instantiated(item) {
        Some(name) => Ok(stack.push(Visit { name, left })?),
        None => Ok(()),
    }
}

/// Puts the visits to the modules of all instances on the stack, the first of them last.
fn add_instances<'a>(
    stack: &mut Vec<Visit<'a>>,
    items: &'a [Item],
    left: usize,
) -> Result<(), Memory>
    ensures { OnOk result ((all seen : List ModuleTree) → after all seen stack.new.items ≡
        after all (with_all all left seen (filter_map instance_in (map item_tree items.now)))
        stack.old.items) }
{
    let mut place = items.len();
    while place > 0 {
        place -= 1;
        add_instance(stack, &items[place], left)?;
    }
    Ok(())
}

/// The module that a visit comes to, if it is there, was not seen, and may stand in those around it.
fn first_visited<'a>(
    visit: &Visit<'a>,
    names: &NameTable,
    modules: &[&'a Module],
    seen: &NameTable,
) -> Option<&'a Module>
    requires named { names.now ≡ module_names (map (λ m. module_tree m.now) modules.now) }
    ensures some { IfSome result (λ m. IsFirst (map (λ x. module_tree x.now) modules.now)
        seen.now visit.now (module_tree m.now)) }
    ensures none { IfNone result
        (IsIdle (map (λ m. module_tree m.now) modules.now) seen.now visit.now) }
{
    if visit.left == 0 {
        return None;
    }
    if has_name(seen, visit.name) {
        return None;
    }
    module_named(names, modules, visit.name)
}

/// A module that is seen for the first time, in which at most so many modules may stand in one another.
#[derive(Drop)]
struct Entered<'a> {
    module: &'a Module,
    left: usize,
}

/// The next module on the stack that is seen for the first time.
fn next_entered<'a>(
    stack: &mut Vec<Visit<'a>>,
    names: &NameTable,
    modules: &[&'a Module],
    seen: &NameTable,
) -> Option<Entered<'a>>
    requires named { names.now ≡ module_names (map (λ m. module_tree m.now) modules.now) }
    ensures some { IfSome result (λ e. Enters (map (λ x. module_tree x.now) modules.now)
        seen.now stack.old.items stack.new.items (module_tree e.module.now) e.left) }
    ensures none { IfNone result ((order : List ModuleTree) → seen.now ≡ module_names order →
        after (map (λ m. module_tree m.now) modules.now) order stack.old.items ≡ order) }
{
    while let Some(visit) = stack.pop() {
        if let Some(module) = first_visited(&visit, names, modules, seen) {
            return Some(Entered {
                module,
                left: visit.left - 1,
            });
        }
    }
    None
}

/// The stack that the walk begins with: the visit to the top.
fn begin(alloc: Global, top: &Name, most: usize) -> Result<Vec<Visit<'_>>, Memory>
    ensures { IfOk result (λ stack. (all : List ModuleTree) →
        after all [] stack.items ≡ visit all most [] top.now) }
{
    let mut stack = Vec::new(alloc);
    stack.push(Visit {
        name: top,
        left: most,
    })?;
    Ok(stack)
}

/// Sees a module, and puts the visits to its instances' modules on the stack.
fn enter<'a>(
    seen: &mut NameTable,
    order: &mut Vec<&'a Module>,
    stack: &mut Vec<Visit<'a>>,
    entered: &Entered<'a>,
) -> Result<(), Memory>
    ensures names { OnOk result (seen.new ≡ with_name seen.old entered.now.module.now.name) }
    ensures order { OnOk result (map (λ m. module_tree m.now) order.new.items ≡
        map (λ m. module_tree m.now) order.old.items
        ++ module_tree entered.now.module.now ∷ []) }
    ensures stack { OnOk result ((all before : List ModuleTree) →
        after all before stack.new.items ≡ after all (with_all all entered.now.left before
        (instances (module_tree entered.now.module.now))) stack.old.items) }
{
    meets(seen, &entered.module.name)?;
    order.push(entered.module)?;
    add_instances(stack, entered.module.items.as_slice(), entered.left)
}

/// The modules that the visits on a stack come to, in the order of first visit.
fn walk<'a>(
    alloc: Global,
    names: &NameTable,
    modules: &[&'a Module],
    mut stack: Vec<Visit<'a>>,
) -> Result<Vec<&'a Module>, Memory>
    requires named { names.now ≡ module_names (map (λ m. module_tree m.now) modules.now) }
    ensures { IfOk result (λ order. map (λ m. module_tree m.now) order.items ≡
        after (map (λ m. module_tree m.now) modules.now) [] stack.entry.items) }
{
    let mut seen = NameTable::new(alloc)?;
    let mut order = Vec::new(alloc);
    while let Some(entered) = next_entered(&mut stack, names, modules, &seen) {
        enter(&mut seen, &mut order, &mut stack, &entered)?;
    }
    Ok(order)
}

/// The modules that are reached from the top, in the order of first visit.
pub fn reached<'a>(
    alloc: Global,
    names: &NameTable,
    modules: &[&'a Module],
    top: &'a Name,
) -> Result<Vec<&'a Module>, Memory>
    requires named { names.now ≡ module_names (map (λ m. module_tree m.now) modules.now) }
    ensures { IfOk result (λ order. map (λ m. module_tree m.now) order.items ≡
        spec.reached (map (λ m. module_tree m.now) modules.now) top.now) }
{
    let stack = begin(alloc, top, modules.len())?;
    walk(alloc, names, modules, stack)
}

/// The modules that are reached from the instances of a module.
pub fn reached_below<'a>(
    alloc: Global,
    names: &NameTable,
    modules: &[&'a Module],
    above: &'a Module,
) -> Result<Vec<&'a Module>, Memory>
    requires named { names.now ≡ module_names (map (λ m. module_tree m.now) modules.now) }
    ensures { IfOk result (λ order. map (λ m. module_tree m.now) order.items ≡
        spec.reached_below (map (λ m. module_tree m.now) modules.now) (module_tree above.now)) }
{
    let mut stack = Vec::new(alloc);
    add_instances(&mut stack, above.items.as_slice(), modules.len())?;
    walk(alloc, names, modules, stack)
}

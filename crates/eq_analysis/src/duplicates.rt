//! Names that a module gives twice.

ghost use Rattle.std.specs.Prelude.{◌≡◌, ◌++◌, ◌∷◌, [], ℕ, List, None, not, map, option_copied, filter_map, if◌then◌else◌, IfOk, OnOk};
ghost use Rattle.std.specs.List.{cons_option};
ghost use Rattle.eq_names.specs.Tables.{with_name};
ghost use Rattle.eq_net.specs.Meaning.{if_there};
ghost use Rattle.eq_verilog.specs.Trees.{item_tree, module_tree};
ghost use Rattle.eq_verilog.specs.Declarations.{Declaration, declaration_in, has, is_direction as is_direction_of};
ghost use Rattle.eq_verilog.specs.Firsts as firsts;
ghost use Rattle.eq_verilog.specs.ModuleRefusals as spec;
ghost use Rattle.eq_analysis.specs.inner.Duplicates.{AreCounted, AreSeen};

use crate::again::{first_again, has_name, meets};
use crate::declaring::is_direction;
use crate::tables::Table;
use eq_base::Memory;
use eq_names::{Name, NameTable};
use eq_vparse::{DeclKind, Item};
use std::alloc::Global;

fn references(alloc: Global, names: &[Name]) -> Result<Vec<&Name>, Memory>
    ensures { IfOk result (λ all. map (λ n. n.now) all.items ≡ names.now) }
{
    let mut all = Vec::new(alloc);
    for name in names {
        all.push(name)?;
    }
    Ok(all)
}

/// The first name that is among those before it.
fn repeated(alloc: Global, names: &[Name]) -> Result<Option<&Name>, Memory>
    ensures { IfOk result (λ found. option_copied found ≡ firsts.first_again names.now) }
{
    let all = references(alloc, names)?;
    let mut seen = NameTable::new(alloc)?;
    first_again(&mut seen, all.as_slice())
}

/// The name of an instance or of a gate.
fn own_name(item: &Item) -> Option<&Name>
    ensures { option_copied result ≡ spec.own_name (item_tree item.now) }
{
    match item {
        Item::Instance { name, .. } => Some(name),
        Item::Gate { name, .. } => name.as_ref(),
        Item::Decl { .. } => None,
        Item::Assign { .. } => None,
        Item::Always { .. } => None,
        Item::Init { .. } => None,
    }
}

/// The names of instances and gates, and those of them that come again.
#[derive(Drop)]
struct OwnNames {
    once: NameTable,
    twice: NameTable,
}

/// Counts a name.
fn add_own(once: &mut NameTable, twice: &mut NameTable, name: &Name) -> Result<(), Memory>
    ensures once { OnOk result (once.new ≡ with_name once.old name.now) }
    ensures twice { OnOk result (twice.new ≡
        (if has once.old name.now then with_name twice.old name.now else twice.old)) }
{
    if meets(once, name)? {
        meets(twice, name)?;
    }
    Ok(())
}

/// Counts the name of an item.
fn add_own_of(once: &mut NameTable, twice: &mut NameTable, item: &Item) -> Result<(), Memory>
    ensures { OnOk result ((names : List (List ℕ)) → AreCounted names once.old twice.old →
        AreCounted (names ++ cons_option (spec.own_name (item_tree item.now)) [])
        once.new twice.new) }
{
    match own_name(item) {
        Some(name) => add_own(once, twice, name),
        None => Ok(()),
    }
}

/// The names of the instances and gates among items.
fn own_names(alloc: Global, items: &[Item]) -> Result<OwnNames, Memory>
    ensures { IfOk result (λ own.
        AreCounted (filter_map spec.own_name (map item_tree items.now)) own.once own.twice) }
{
    let mut once = NameTable::new(alloc)?;
    let mut twice = NameTable::new(alloc)?;
    for item in items {
        add_own_of(&mut once, &mut twice, item)?;
    }
    Ok(OwnNames { once, twice })
}

/// Whether two instances or gates have the name, or a net has it.
fn is_taken_twice(own: &OwnNames, table: &Table, name: &Name) -> bool
    requires counted { AreCounted
        (filter_map spec.own_name (map item_tree table.now.within.now.items))
        own.now.once own.now.twice }
    ensures { result ≡ spec.is_taken_twice (module_tree table.now.within.now) name.now }
{
    has_name(&own.twice, name) || table.is_port(name) || table.is_declared(name)
}

/// Sees the declaration of a name, and says whether one before is alike.
fn declares_again(
    directions: &mut NameTable,
    others: &mut NameTable,
    kind: DeclKind,
    name: &Name,
) -> Result<bool, Memory>
    ensures again { IfOk result (λ again. again ≡
        has (if is_direction_of kind then directions.old else others.old) name.now) }
    ensures directions { OnOk result (directions.new ≡
        (if is_direction_of kind then with_name directions.old name.now else directions.old)) }
    ensures others { OnOk result (others.new ≡
        (if is_direction_of kind then others.old else with_name others.old name.now)) }
{
    if is_direction(kind) {
        meets(directions, name)
    } else {
        meets(others, name)
    }
}

/// The name of an item, where it is taken.
fn taken_name<'a>(own: &OwnNames, table: &Table, item: &'a Item) -> Option<&'a Name>
    requires counted { AreCounted
        (filter_map spec.own_name (map item_tree table.now.within.now.items))
        own.now.once own.now.twice }
    ensures { option_copied result ≡ if_there None (λ n. firsts.unless
        (not (spec.is_taken_twice (module_tree table.now.within.now) n)) n)
        (spec.own_name (item_tree item.now)) }
{
    match own_name(item) {
        Some(name) => {
            if is_taken_twice(own, table, name) {
                Some(name)
            } else {
                None
            }
        }
        None => None,
    }
}

/// The name of an item, where it declares it again or the name is taken. It counts as seen then.
fn duplicate_at<'a>(
    directions: &mut NameTable,
    others: &mut NameTable,
    own: &OwnNames,
    table: &Table,
    item: &'a Item,
) -> Result<Option<&'a Name>, Memory>
    requires counted { AreCounted
        (filter_map spec.own_name (map item_tree table.now.within.now.items))
        own.now.once own.now.twice }
    ensures found { IfOk result (λ found. (before : List Declaration) →
        AreSeen before directions.old others.old → option_copied found ≡
        spec.duplicate_at (module_tree table.now.within.now) before (item_tree item.now)) }
    ensures seen { OnOk result ((before : List Declaration) →
        AreSeen before directions.old others.old →
        AreSeen (if_there before (λ d. d ∷ before) (declaration_in (item_tree item.now)))
        directions.new others.new) }
{
    match item {
        Item::Decl { kind, name, .. } => {
            if declares_again(directions, others, *kind, name)? {
                Ok(Some(name))
            } else {
                Ok(None)
            }
        }
        Item::Assign { .. } => Ok(None),
        Item::Gate { .. } => Ok(taken_name(own, table, item)),
        Item::Instance { .. } => Ok(taken_name(own, table, item)),
        Item::Always { .. } => Ok(None),
        Item::Init { .. } => Ok(None),
    }
}

/// The first name that an item declares again, or that is taken.
fn duplicate_in_items<'a>(
    alloc: Global,
    own: &OwnNames,
    table: &Table,
    items: &'a [Item],
) -> Result<Option<&'a Name>, Memory>
    requires counted { AreCounted
        (filter_map spec.own_name (map item_tree table.now.within.now.items))
        own.now.once own.now.twice }
    ensures { IfOk result (λ found. option_copied found ≡ spec.duplicate_from
        (module_tree table.now.within.now) [] (map item_tree items.now)) }
{
    let mut directions = NameTable::new(alloc)?;
    let mut others = NameTable::new(alloc)?;
    for item in items {
        if let Some(name) = duplicate_at(&mut directions, &mut others, own, table, item)? {
            return Ok(Some(name));
        }
    }
    Ok(None)
}

/// The first name that an item of a module declares again, or that is taken.
fn duplicate_item<'a>(alloc: Global, table: &Table<'a>) -> Result<Option<&'a Name>, Memory>
    ensures { IfOk result (λ found. option_copied found ≡ spec.duplicate_from
        (module_tree table.now.within.now) [] (module_tree table.now.within.now).items) }
{
    let items = table.within.items.as_slice();
    let own = own_names(alloc, items)?;
    duplicate_in_items(alloc, &own, table, items)
}

/// A port that stands twice in the header, or the first name that an item declares again or that is
/// taken.
pub fn duplicate_name<'a>(alloc: Global, table: &Table<'a>) -> Result<Option<&'a Name>, Memory>
    ensures { IfOk result (λ found. option_copied found ≡
        spec.duplicate_name (module_tree table.now.within.now)) }
{
    match repeated(alloc, table.within.ports.as_slice())? {
        Some(name) => Ok(Some(name)),
        None => duplicate_item(alloc, table),
    }
}

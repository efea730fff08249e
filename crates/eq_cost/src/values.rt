//! What an instance of each module costs with all in it: one number for each module, found where all modules that it
//! instantiates have theirs.

ghost use Rattle.std.specs.Prelude.{◌≡◌, ◌≤◌, ◌+◌, ℕ, Some, None, length, map, filter_map, replicate, set, slice_get, sum_by, IfOk, IfSome, OnOk};
ghost use Rattle.eq_net.specs.Meaning.{if_there};
ghost use Rattle.eq_verilog.specs.Trees.{item_tree};
ghost use Rattle.eq_verilog.specs.Hierarchy.{instance_in, instances, module_names, module_named};
ghost use Rattle.eq_verilog.specs.Costs.{cost_below};
ghost use Rattle.eq_analysis.specs.Tabling.{tree_at, trees_at};
ghost use Rattle.eq_cost.specs.Counts.{told};
ghost use Rattle.eq_cost.specs.inner.Valuing as spec;

use crate::counting::sum;
use crate::items::module_cost;
use eq_analysis::{Table, instantiated, table_at};
use eq_base::Memory;
use eq_names::{Name, NameTable};
use eq_verilog::laws::modules_by_number;
use eq_vparse::Item;
use std::alloc::Global;

/// The value at a place.
pub fn value_at(values: &[Option<u64>], place: u32) -> Option<u64>
    ensures { IfSome result (λ v. slice_get values.now place ≡ Some (Some v)) }
{
    match values.get(place as usize) {
        Some(value) => *value,
        None => None,
    }
}

/// The value of the module of a name. What isn't there costs nothing.
fn value_named(
    names: &NameTable,
    tables: &[Table],
    values: &[Option<u64>],
    of: &Name,
) -> Option<u64>
    requires named { names.now ≡ module_names (trees_at tables.now) }
    ensures { IfSome result (λ v. (k j : ℕ) → spec.AreValued (trees_at tables.now) k values.now →
        k ≤ j → told (if_there 0 (cost_below (trees_at tables.now) j)
        (module_named (trees_at tables.now) of.now)) ≡ told v) }
{
    modules_by_number();
    match names.find(of.bytes()) {
        Some(place) => value_at(values, place),
        None => Some(0),
    }
}

/// The value of what an item instantiates.
fn value_of_item(
    names: &NameTable,
    tables: &[Table],
    values: &[Option<u64>],
    item: &Item,
) -> Option<u64>
    requires named { names.now ≡ module_names (trees_at tables.now) }
    ensures { IfSome result (λ v. (k j : ℕ) → spec.AreValued (trees_at tables.now) k values.now →
        k ≤ j → told (if_there 0 (spec.inside_cost (trees_at tables.now) j)
        (instance_in (item_tree item.now))) ≡ told v) }
{
    match instantiated(item) {
        Some(name) => value_named(names, tables, values, name),
        None => Some(0),
    }
}

/// The values of what all items instantiate.
fn values_of_items(
    names: &NameTable,
    tables: &[Table],
    values: &[Option<u64>],
    items: &[Item],
) -> Option<u64>
    requires named { names.now ≡ module_names (trees_at tables.now) }
    ensures { IfSome result (λ v. (k j : ℕ) → spec.AreValued (trees_at tables.now) k values.now →
        k ≤ j → told (sum_by (spec.inside_cost (trees_at tables.now) j)
        (filter_map instance_in (map item_tree items.now))) ≡ told v) }
{
    let mut total = 0;
    for item in items {
        match value_of_item(names, tables, values, item) {
            Some(value) => total = sum(total, value),
            None => return None,
        }
    }
    Some(total)
}

/// The value of a module in which all that it instantiates costs so much.
fn whole_value(
    alloc: Global,
    names: &NameTable,
    tables: &[Table],
    table: &Table,
    inside: u64,
) -> Result<u64, Memory>
    requires named { names.now ≡ module_names (trees_at tables.now) }
    ensures { IfOk result (λ v. (k j : ℕ) → ((i : ℕ) → k ≤ i → told (sum_by
        (spec.inside_cost (trees_at tables.now) i) (instances (tree_at table.now))) ≡ told inside) →
        k + 1 ≤ j → told (cost_below (trees_at tables.now) j (tree_at table.now)) ≡ told v) }
{
    let own = module_cost(alloc, names, tables, table)?;
    let both = sum(own, inside);
    Ok(sum(both, 1))
}

/// The value of a module, where all that it instantiates have theirs.
fn value_of(
    alloc: Global,
    names: &NameTable,
    tables: &[Table],
    values: &[Option<u64>],
    table: &Table,
) -> Result<Option<u64>, Memory>
    requires named { names.now ≡ module_names (trees_at tables.now) }
    ensures { IfOk result (λ found. IfSome found (λ v. (k j : ℕ) →
        spec.AreValued (trees_at tables.now) k values.now → k + 1 ≤ j →
        told (cost_below (trees_at tables.now) j (tree_at table.now)) ≡ told v)) }
{
    match values_of_items(names, tables, values, table.within.items.as_slice()) {
        Some(inside) => {
            let value = whole_value(alloc, names, tables, table, inside)?;
            Ok(Some(value))
        }
        None => Ok(None),
    }
}

/// Puts a value at a place.
fn put(values: &mut Vec<Option<u64>>, place: u32, value: Option<u64>)
    ensures { values.new.items ≡ set values.old.items place value }
{
    if (place as usize) < values.len() {
        values[place as usize] = value;
    }
}

/// Finds the value of the module at a place.
fn find_value(
    alloc: Global,
    names: &NameTable,
    tables: &[Table],
    values: &mut Vec<Option<u64>>,
    place: u32,
) -> Result<(), Memory>
    requires named { names.now ≡ module_names (trees_at tables.now) }
    ensures { OnOk result ((k : ℕ) → spec.AreValued (trees_at tables.now) k values.old.items →
        spec.AreValued (trees_at tables.now) (k + 1) values.new.items) }
{
    match table_at(tables, place) {
        Some(table) => {
            let value = value_of(alloc, names, tables, values.as_slice(), table)?;
            put(values, place, value);
            Ok(())
        }
        None => Ok(()),
    }
}

/// Finds the values of modules, one after the other.
fn find_values(
    alloc: Global,
    names: &NameTable,
    tables: &[Table],
    values: &mut Vec<Option<u64>>,
    order: &[u32],
) -> Result<(), Memory>
    requires named { names.now ≡ module_names (trees_at tables.now) }
    ensures { OnOk result (spec.AreValued (trees_at tables.now) 0 values.old.items →
        spec.AreValued (trees_at tables.now) (length order.now) values.new.items) }
{
    for place in order {
        find_value(alloc, names, tables, values, *place)?;
    }
    Ok(())
}

/// No module has a value.
fn no_values(alloc: Global, count: usize) -> Result<Vec<Option<u64>>, Memory>
    ensures { IfOk result (λ values. values.items ≡ replicate count None) }
{
    let mut values = Vec::new(alloc);
    for _ in 0..count {
        values.push(None)?;
    }
    Ok(values)
}

/// The values of modules in an order.
pub fn all_values(
    alloc: Global,
    names: &NameTable,
    tables: &[Table],
    order: &[u32],
) -> Result<Vec<Option<u64>>, Memory>
    requires named { names.now ≡ module_names (trees_at tables.now) }
    ensures { IfOk result (λ values.
        spec.AreValued (trees_at tables.now) (length order.now) values.items) }
{
    let mut values = no_values(alloc, tables.len())?;
    find_values(alloc, names, tables, &mut values, order)?;
    Ok(values)
}

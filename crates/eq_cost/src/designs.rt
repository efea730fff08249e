//! The cost of a design, and whether it is too much. It takes the time of the text, since each module is looked at once,
//! also where a hierarchy would unfold to more instances than can be counted.

ghost use Rattle.std.specs.Prelude.{◌≡◌, ◌≤◌, if◌then◌else◌, nat_lt, Some, None, length, slice_get, IfOk};
ghost use Rattle.eq_net.specs.Meaning.{if_there};
ghost use Rattle.eq_verilog.specs.Hierarchy.{module_names};
ghost use Rattle.eq_verilog.specs.Costs.{cost_below};
ghost use Rattle.eq_verilog.specs.Costs as spec;
ghost use Rattle.eq_verilog.specs.Refusals as refusals;
ghost use Rattle.eq_analysis.specs.Tabling.{trees_at};
ghost use Rattle.eq_cost.specs.Counts.{told};

use crate::counting::sum;
use crate::order::order_below;
use crate::values::{all_values, value_at};
use eq_analysis::Table;
use eq_base::Memory;
use eq_names::{Name, NameTable};
use eq_verilog::laws::{cost_by_modules, modules_by_number};
use std::alloc::Global;

/// The most that a design may cost.
const MOST_COST: u64 = 2_000_000;

/// An order of modules in which each stands once.
fn order_once(
    alloc: Global,
    names: &NameTable,
    tables: &[Table],
    place: u32,
) -> Result<Vec<u32>, Memory>
    ensures { IfOk result (λ order. length order.items ≤ length tables.now) }
{
    let order = order_below(alloc, names, tables, place)?;
    if order.len() > tables.len() {
        return Err(Memory);
    }
    Ok(order)
}

/// What the module at a place costs with all in it. It has no value only where a module stands in itself.
fn cost_at(alloc: Global, names: &NameTable, tables: &[Table], place: u32) -> Result<u64, Memory>
    requires named { names.now ≡ module_names (trees_at tables.now) }
    ensures { IfOk result (λ cost. told (if_there 0
        (cost_below (trees_at tables.now) (length (trees_at tables.now)))
        (slice_get (trees_at tables.now) place)) ≡ told cost) }
{
    let order = order_once(alloc, names, tables, place)?;
    let modules = order.as_slice();
    let values = all_values(alloc, names, tables, modules)?;
    let found = values.as_slice();
    match value_at(found, place) {
        Some(value) => Ok(value),
        None => Err(Memory),
    }
}

/// The cost of the design of a top, up to the most that is told: `names` are the names of the tables' modules. Where a
/// module stands in itself, which is refused before, it is `Memory`.
pub fn design_cost(
    alloc: Global,
    names: &NameTable,
    tables: &[Table],
    top: &Name,
) -> Result<u64, Memory>
    requires named { names.now ≡ module_names (trees_at tables.now) }
    ensures ok { IfOk result (λ cost. cost ≡
        told (spec.design_cost (trees_at tables.now) top.now)) }
{
    cost_by_modules();
    modules_by_number();
    match names.find(top.bytes()) {
        Some(place) => {
            let inside = cost_at(alloc, names, tables, place)?;
            Ok(sum(1, inside))
        }
        None => Ok(1),
    }
}

/// The cost, where it is too much.
pub fn excess(cost: u64) -> Option<u64>
    ensures ok { result ≡ if nat_lt refusals.most_cost cost then Some cost else None }
{
    if cost > MOST_COST { Some(cost) } else { None }
}

/// The cost of the design of a top, where it is too much.
pub fn too_large(
    alloc: Global,
    names: &NameTable,
    tables: &[Table],
    top: &Name,
) -> Result<Option<u64>, Memory>
    requires named { names.now ≡ module_names (trees_at tables.now) }
    ensures ok { IfOk result (λ found. found ≡
        refusals.excess (spec.design_cost (trees_at tables.now) top.now)) }
{
    let cost = design_cost(alloc, names, tables, top)?;
    Ok(excess(cost))
}

//! The values of cells: a walk in depth without recursion computes each cell behind those that it needs. That it reaches all
//! of them is no contract: it is asked at the end (`settled`).

ghost use Rattle.std.specs.Prelude.{◌≡◌, ◌≢◌, ℕ, ◌+◌, ◌<◌, List, Bool, None, Some, IfOk, IfSome, false, length, slice_index_or};
ghost use Rattle.eq_net.specs.inner.Cells.{Computes, Valuation, cell_at, computed};
ghost use Rattle.eq_net.specs.inner.Circuits.{AreComputed, Extends, valuation, value_of};

use super::gates::{Cell, ONE, ZERO};
use crate::bitwise::differ;
use eq_base::Memory;
use std::alloc::Global;

/// The place of a cell that has no value yet.
#[derive(Clone, Copy, Debug)]
struct Wanted(u32);

/// The value of the cell at a place, if there is one.
fn found(values: &[Option<bool>], place: usize) -> Option<bool>
    ensures { result ≡ value_of values.now place }
{
    match values.get(place) {
        Some(value) => *value,
        None => None,
    }
}

/// The value of the cell at a place, 0 where there is no cell.
fn value_at(values: &[Option<bool>], place: u32) -> Result<bool, Wanted>
    ensures { IfOk result (λ x. (links : List ℕ) (v : Valuation) → Extends links values.now v →
        v.cells (2 + place) ≡ x) }
{
    if place as usize >= values.len() {
        return Ok(false);
    }
    match found(values, place as usize) {
        Some(value) => Ok(value),
        None => Err(Wanted(place)),
    }
}

/// The value of a constant or a cell, by its number.
fn value(values: &[Option<bool>], number: u32) -> Result<bool, Wanted>
    ensures { IfOk result (λ x. (links : List ℕ) (v : Valuation) → Extends links values.now v →
        v.cells number ≡ x) }
{
    if number == ZERO {
        return Ok(false);
    }
    if number == ONE {
        return Ok(true);
    }
    value_at(values, number - 2)
}

/// The number of the cell that a bit is linked to.
fn linked(links: &[u32], bit: u32) -> u32
    ensures { result ≡ slice_index_or links.now bit 0 }
{
    match links.get(bit as usize) {
        Some(number) => *number,
        None => ZERO,
    }
}

/// What a cell computes, or one of those that it needs for that and that has no value.
fn compute(links: &[u32], values: &[Option<bool>], cell: Cell) -> Result<bool, Wanted>
    ensures { IfOk result (λ x. (v : Valuation) → Extends links.now values.now v →
        computed v cell ≡ x) }
{
    match cell {
        Cell::Bit(b) => value(values, linked(links, b)),
        Cell::Not(a) => Ok(!value(values, a)?),
        Cell::And(a, b) => Ok(value(values, a)? & value(values, b)?),
        Cell::Or(a, b) => Ok(value(values, a)? | value(values, b)?),
        Cell::Xor(a, b) => Ok(differ(value(values, a)?, value(values, b)?)),
        Cell::Choose(c, a, b) => {
            if value(values, c)? {
                value(values, a)
            } else {
                value(values, b)
            }
        }
    }
}

/// Gives a cell its value, if it has none.
fn keep(values: &mut Vec<Option<bool>>, at: usize, value: bool)
    requires { at < length values.old.items }
    ensures size { length values.new.items ≡ length values.old.items }
    ensures here { value_of values.old.items at ≡ None →
        value_of values.new.items at ≡ Some value }
    ensures kept { (x : Bool) → value_of values.old.items at ≡ Some x →
        value_of values.new.items at ≡ Some x }
    ensures others { (k : ℕ) → k ≢ at → value_of values.new.items k ≡ value_of values.old.items k }
{
    if values[at].is_none() {
        values[at] = Some(value);
    }
}

/// The cell at a place.
fn cell_in(cells: &[Cell], at: usize) -> Cell
    requires { at < length cells.now }
    ensures { result ≡ cell_at cells.now at }
{
    cells[at]
}

/// Computes the cell at a place. Answers the place of one that it needs, if that has no value.
fn settle(links: &[u32], cells: &[Cell], place: u32, values: &mut Vec<Option<bool>>) -> Option<u32>
    ensures size { length values.new.items ≡ length values.old.items }
    ensures computed { AreComputed links.now cells.now values.old.items →
        AreComputed links.now cells.now values.new.items }
{
    let at = place as usize;
    if at >= cells.len() || at >= values.len() {
        return None;
    }
    let cell = cell_in(cells, at);
    match compute(links, values, cell) {
        Ok(value) => {
            keep(values, at, value);
            None
        }
        Err(Wanted(needed)) => Some(needed),
    }
}

/// Whether there is a cell at a place that has no value.
fn is_open(values: &[Option<bool>], place: u32) -> bool {
    match values.get(place as usize) {
        Some(value) => value.is_none(),
        None => false,
    }
}

/// Computes the cell begun last, begins one that it needs, or begins anew at the next place.
fn turn(
    links: &[u32],
    cells: &[Cell],
    begun: &mut Vec<u32>,
    root: &mut u32,
    values: &mut Vec<Option<bool>>,
) -> Result<(), Memory>
    ensures size { length values.new.items ≡ length values.old.items }
    ensures computed { AreComputed links.now cells.now values.old.items →
        AreComputed links.now cells.now values.new.items }
{
    let Some(place) = begun.pop() else {
        if is_open(values, *root) {
            begun.push(*root)?;
        }
        *root = root.saturating_add(1);
        return Ok(());
    };
    if let Some(needed) = settle(links, cells, place, values) {
        begun.push(place)?;
        begun.push(needed)?;
    }
    Ok(())
}

/// As many cells without a value.
fn no_values(alloc: Global, count: usize) -> Result<Vec<Option<bool>>, Memory>
    ensures size { IfOk result (λ values. length values.items ≡ count) }
    ensures none { IfOk result (λ values. (k : ℕ) → value_of values.items k ≡ None) }
{
    let mut values = Vec::with_capacity(alloc, count)?;
    for _ in 0..count {
        values.push(None)?;
    }
    Ok(values)
}

/// The values of the cells that the walk reaches. Each cell is begun once, and waits for others as often as these are begun.
fn walk(alloc: Global, links: &[u32], cells: &[Cell]) -> Result<Vec<Option<bool>>, Memory>
    ensures size { IfOk result (λ values. length values.items ≡ length cells.now) }
    ensures computed { IfOk result (λ values. AreComputed links.now cells.now values.items) }
{
    let mut values = no_values(alloc, cells.len())?;
    let mut begun = Vec::new(alloc);
    let mut root = 0;
    for _ in 0..cells.len().saturating_mul(3) {
        turn(links, cells, &mut begun, &mut root, &mut values)?;
    }
    Ok(values)
}

/// The values, if each cell has one.
fn settled(alloc: Global, values: &[Option<bool>]) -> Result<Option<Vec<bool>>, Memory>
    ensures size { IfOk result (λ found. IfSome found (λ bits.
        length bits.items ≡ length values.now)) }
    ensures each { IfOk result (λ found. IfSome found (λ bits. (k : ℕ) → k < length values.now →
        value_of values.now k ≡ Some (slice_index_or bits.items k false))) }
{
    let mut bits = Vec::with_capacity(alloc, values.len())?;
    for value in values {
        match value {
            Some(bit) => bits.push(*bit)?,
            None => return Ok(None),
        }
    }
    Ok(Some(bits))
}

/// The values of all cells, where each bit of the nets has the value of the cell that it is linked to. There are none where
/// the walk doesn't reach all cells, or where there are more cells than numbers.
pub fn cell_values(
    alloc: Global,
    links: &[u32],
    cells: &[Cell],
) -> Result<Option<Vec<bool>>, Memory>
    ensures { IfOk result (λ found. IfSome found (λ bits.
        Computes cells.now (valuation links.now bits.items))) }
{
    if cells.len() > 4_294_967_294 {
        return Ok(None);
    }
    let values = walk(alloc, links, cells)?;
    settled(alloc, &values)
}

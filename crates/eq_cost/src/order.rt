//! An order of the modules below one of them, each behind those that it instantiates. It decides whether all values are
//! found, and nothing of what they are: no contract speaks of it.

use eq_analysis::{Table, instantiated};
use eq_base::Memory;
use eq_names::NameTable;
use eq_vparse::Item;
use std::alloc::Global;

/// A module that is to be entered, or to be put behind those that it instantiates.
#[derive(Clone, Copy, Debug, PartialEq, Eq)]
enum Step {
    Enter(u32),
    Leave(u32),
}

/// Puts the modules of all instances on the stack.
fn push_instances(stack: &mut Vec<Step>, names: &NameTable, items: &[Item]) -> Result<(), Memory> {
    for item in items {
        if let Some(name) = instantiated(item) {
            if let Some(place) = names.find(name.bytes()) {
                stack.push(Step::Enter(place))?;
            }
        }
    }
    Ok(())
}

/// Whether a module is entered for the first time.
fn is_first(entered: &mut Vec<bool>, place: u32) -> bool {
    match entered.get_mut(place as usize) {
        Some(mark) => {
            let first = !*mark;
            *mark = true;
            first
        }
        None => false,
    }
}

/// Puts a module on the stack again, and those that it instantiates above it.
fn enter(
    stack: &mut Vec<Step>,
    names: &NameTable,
    tables: &[Table],
    place: u32,
) -> Result<(), Memory> {
    stack.push(Step::Leave(place))?;
    match tables.get(place as usize) {
        Some(table) => push_instances(stack, names, table.within.items.as_slice()),
        None => Ok(()),
    }
}

fn take_step(
    stack: &mut Vec<Step>,
    entered: &mut Vec<bool>,
    order: &mut Vec<u32>,
    names: &NameTable,
    tables: &[Table],
    step: Step,
) -> Result<(), Memory> {
    match step {
        Step::Leave(place) => Ok(order.push(place)?),
        Step::Enter(place) => {
            if is_first(entered, place) {
                enter(stack, names, tables, place)
            } else {
                Ok(())
            }
        }
    }
}

/// The modules below the one at a place, and behind them itself.
pub fn order_below(
    alloc: Global,
    names: &NameTable,
    tables: &[Table],
    place: u32,
) -> Result<Vec<u32>, Memory> {
    let mut entered = Vec::new(alloc);
    for _ in 0..tables.len() {
        entered.push(false)?;
    }
    let mut order = Vec::new(alloc);
    let mut stack = Vec::new(alloc);
    stack.push(Step::Enter(place))?;
    for _ in 0..u64::MAX {
        match stack.pop() {
            Some(step) => take_step(&mut stack, &mut entered, &mut order, names, tables, step)?,
            None => return Ok(order),
        }
    }
    Ok(order)
}

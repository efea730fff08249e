//! Operations of operands on the stack that give one bit, and the choice by one.

ghost use Rattle.std.specs.Prelude.{◌≡◌, ◌==◌, ℕ, ◌+◌, ◌-◌, ◌≤◌, IfOk, OnOk, length, nat_lt};
ghost use Rattle.eq_net.specs.Operators.{choose, one_bit};
ghost use Rattle.eq_net.specs.Numbers.{all_ones, differ, number, parity, some_one};
ghost use Rattle.eq_net.specs.inner.Cells.{Gives, Grown, Performs, seen};
ghost use Rattle.eq_net.specs.inner.CellSteps.{folded, step_value};

use super::gates::{Cell, Kind, ONE, ZERO, step};
use super::numbers::{leave_one, move_down};
use super::rows::{fold, map};
use crate::laws::order_from_the_lowest;
use eq_base::Memory;

/// The cell, or its negation.
fn flipped(negate: bool, cells: &mut Vec<Cell>, cell: u32) -> Result<u32, Memory>
    ensures grown { OnOk result (Grown cells.old.items cells.new.items) }
    ensures gives { IfOk result
        (λ m. Gives cells.new.items m (λ v. differ negate (v.cells cell))) }
{
    if negate {
        step(Kind::Not, cells, cell, cell, cell)
    } else {
        Ok(cell)
    }
}

/// Puts what a value becomes over the bits from `left` and from `right` on, or its negation, in the place of all from `to` on.
fn test(
    kind: Kind,
    negate: bool,
    cells: &mut Vec<Cell>,
    stack: &mut Vec<u32>,
    left: usize,
    right: usize,
    count: usize,
    start: u32,
    to: usize,
) -> Result<(), Memory>
    requires left { left + count ≤ length stack.old.items }
    requires right { right + count ≤ length stack.old.items }
    requires to { to ≤ length stack.old.items }
    ensures { OnOk result (Performs 1 to
        (λ v. one_bit (differ negate
        (folded kind (v.cells start) count (seen v stack.old.items left)
        (seen v stack.old.items right))))
        cells.old.items cells.new.items stack.old.items stack.new.items) }
{
    let value = fold(kind, cells, stack, left, right, count, start)?;
    let truth = flipped(negate, cells, value)?;
    leave_one(stack, to, truth)
}

/// Whether two numbers are equal, or not, in the place of both.
pub fn equality(
    negate: bool,
    cells: &mut Vec<Cell>,
    stack: &mut Vec<u32>,
    left: usize,
    right: usize,
) -> Result<(), Memory>
    requires order { left ≤ right }
    requires sizes { right + (right - left) ≡ length stack.old.items }
    ensures { OnOk result (Performs 1 left
        (λ v. one_bit (differ negate
        (number (right - left) (seen v stack.old.items left) ==
        number (right - left) (seen v stack.old.items right))))
        cells.old.items cells.new.items stack.old.items stack.new.items) }
{
    order_from_the_lowest();
    let count = right - left;
    test(
        Kind::Equal,
        negate,
        cells,
        stack,
        left,
        right,
        count,
        ONE,
        left,
    )
}

/// Whether the first of two numbers is below the second, or not, in the place of both.
pub fn order(
    negate: bool,
    cells: &mut Vec<Cell>,
    stack: &mut Vec<u32>,
    first: usize,
    second: usize,
    count: usize,
    to: usize,
) -> Result<(), Memory>
    requires first { first + count ≤ length stack.old.items }
    requires second { second + count ≤ length stack.old.items }
    requires to { to ≤ length stack.old.items }
    ensures { OnOk result (Performs 1 to
        (λ v. one_bit (differ negate
        (nat_lt (number count (seen v stack.old.items first))
        (number count (seen v stack.old.items second)))))
        cells.old.items cells.new.items stack.old.items stack.new.items) }
{
    order_from_the_lowest();
    test(
        Kind::Less,
        negate,
        cells,
        stack,
        first,
        second,
        count,
        ZERO,
        to,
    )
}

/// Whether one of the bits from a place on is 1.
fn some(cells: &mut Vec<Cell>, stack: &Vec<u32>, from: usize, count: usize) -> Result<u32, Memory>
    requires from { from + count ≤ length stack.now.items }
    ensures grown { OnOk result (Grown cells.old.items cells.new.items) }
    ensures gives { IfOk result (λ m. Gives cells.new.items m
        (λ v. some_one count (seen v stack.now.items from))) }
{
    fold(Kind::Or, cells, stack, from, from, count, ZERO)
}

/// A gate of the truths of both operands, in their place.
pub fn logical(
    kind: Kind,
    cells: &mut Vec<Cell>,
    stack: &mut Vec<u32>,
    left: usize,
    right: usize,
) -> Result<(), Memory>
    requires order { left ≤ right }
    requires sizes { right ≤ length stack.old.items }
    ensures { OnOk result (Performs 1 left
        (λ v. one_bit
        (step_value kind (some_one (right - left) (seen v stack.old.items left))
        (some_one (length stack.old.items - right) (seen v stack.old.items right))
        (some_one (length stack.old.items - right) (seen v stack.old.items right))))
        cells.old.items cells.new.items stack.old.items stack.new.items) }
{
    let x = some(cells, stack, left, right - left)?;
    let y = some(cells, stack, right, stack.len() - right)?;
    let truth = step(kind, cells, x, y, y)?;
    leave_one(stack, left, truth)
}

/// Puts one of two operands, from `left` and from `right` on, in the place of all: the first where the condition, from `from`
/// up to `left`, isn't zero.
pub fn choose_one(
    cells: &mut Vec<Cell>,
    stack: &mut Vec<u32>,
    from: usize,
    left: usize,
    right: usize,
) -> Result<(), Memory>
    requires condition { from ≤ left }
    requires order { left ≤ right }
    requires sizes { right + (right - left) ≡ length stack.old.items }
    ensures { OnOk result (Performs (right - left) from
        (λ v. choose (left - from) (seen v stack.old.items from) (seen v stack.old.items left)
        (seen v stack.old.items right))
        cells.old.items cells.new.items stack.old.items stack.new.items) }
{
    let condition = some(cells, stack, from, left - from)?;
    let top = stack.len();
    map(
        Kind::Choose,
        cells,
        stack,
        left,
        right,
        right - left,
        condition,
    )?;
    move_down(stack, from, top, right - left);
    Ok(())
}

/// Whether all bits from a place on are 1, or not, in their place.
pub fn every(
    negate: bool,
    cells: &mut Vec<Cell>,
    stack: &mut Vec<u32>,
    from: usize,
) -> Result<(), Memory>
    requires from { from ≤ length stack.old.items }
    ensures { OnOk result (Performs 1 from
        (λ v. one_bit (differ negate
        (all_ones (length stack.old.items - from) (seen v stack.old.items from))))
        cells.old.items cells.new.items stack.old.items stack.new.items) }
{
    let count = stack.len() - from;
    test(
        Kind::And,
        negate,
        cells,
        stack,
        from,
        from,
        count,
        ONE,
        from,
    )
}

/// Whether one of the bits from a place on is 1, or none, in their place.
pub fn any(
    negate: bool,
    cells: &mut Vec<Cell>,
    stack: &mut Vec<u32>,
    from: usize,
) -> Result<(), Memory>
    requires from { from ≤ length stack.old.items }
    ensures { OnOk result (Performs 1 from
        (λ v. one_bit (differ negate
        (some_one (length stack.old.items - from) (seen v stack.old.items from))))
        cells.old.items cells.new.items stack.old.items stack.new.items) }
{
    let count = stack.len() - from;
    test(
        Kind::Or,
        negate,
        cells,
        stack,
        from,
        from,
        count,
        ZERO,
        from,
    )
}

/// Whether an odd number of the bits from a place on is 1, or not, in their place.
pub fn odd(
    negate: bool,
    cells: &mut Vec<Cell>,
    stack: &mut Vec<u32>,
    from: usize,
) -> Result<(), Memory>
    requires from { from ≤ length stack.old.items }
    ensures { OnOk result (Performs 1 from
        (λ v. one_bit (differ negate
        (parity (length stack.old.items - from) (seen v stack.old.items from))))
        cells.old.items cells.new.items stack.old.items stack.new.items) }
{
    let count = stack.len() - from;
    test(
        Kind::Xor,
        negate,
        cells,
        stack,
        from,
        from,
        count,
        ZERO,
        from,
    )
}

//! Operations of operands on the stack that keep their width: the bits from `left` up to `right`, and those from there on.

ghost use Rattle.std.specs.Prelude.{◌≡◌, ◌+◌, ◌-◌, ◌≤◌, OnOk, length, not};
ghost use Rattle.eq_net.specs.Operators.{apply, negative};
ghost use Rattle.eq_net.specs.declared.types.WordOp.TheVariants.{Add, Sub};
ghost use Rattle.eq_net.specs.inner.Cells.{Performs, seen};
ghost use Rattle.eq_net.specs.inner.CellSteps.{step_value};

use super::gates::{Cell, Kind, ONE, ZERO};
use super::numbers::{move_down, push_zeros};
use super::rows::{map, ripple};
use crate::laws::{differences_by_complements, operations_see_their_bits, sums_by_carries};
use eq_base::Memory;

/// Puts a gate for each place in the place of both operands.
pub fn combine(
    kind: Kind,
    cells: &mut Vec<Cell>,
    stack: &mut Vec<u32>,
    left: usize,
    right: usize,
) -> Result<(), Memory>
    requires order { left ≤ right }
    requires sizes { right + (right - left) ≡ length stack.old.items }
    ensures { OnOk result (Performs (right - left) left
        (λ v j. step_value kind (seen v stack.old.items left j) (seen v stack.old.items right j)
        (v.cells 0))
        cells.old.items cells.new.items stack.old.items stack.new.items) }
{
    let top = stack.len();
    map(kind, cells, stack, left, right, right - left, ZERO)?;
    move_down(stack, left, top, right - left);
    Ok(())
}

/// Negates the bits from a place on.
pub fn negate(cells: &mut Vec<Cell>, stack: &mut Vec<u32>, from: usize) -> Result<(), Memory>
    requires order { from ≤ length stack.old.items }
    ensures { OnOk result (Performs (length stack.old.items - from) from
        (λ v j. not (seen v stack.old.items from j))
        cells.old.items cells.new.items stack.old.items stack.new.items) }
{
    let top = stack.len();
    map(Kind::Not, cells, stack, from, from, top - from, ZERO)?;
    move_down(stack, from, top, top - from);
    Ok(())
}

/// Puts a sum in the place of its operands.
pub fn sum(
    cells: &mut Vec<Cell>,
    stack: &mut Vec<u32>,
    left: usize,
    right: usize,
) -> Result<(), Memory>
    requires order { left ≤ right }
    requires sizes { right + (right - left) ≡ length stack.old.items }
    ensures { OnOk result (Performs (right - left) left
        (λ v. apply Add (right - left) (right - left) (seen v stack.old.items left)
        (seen v stack.old.items right))
        cells.old.items cells.new.items stack.old.items stack.new.items) }
{
    sums_by_carries();
    let top = stack.len();
    ripple(cells, stack, left, right, right - left, ZERO)?;
    move_down(stack, left, top, right - left);
    Ok(())
}

/// Puts a difference in the place of its operands.
pub fn difference(
    cells: &mut Vec<Cell>,
    stack: &mut Vec<u32>,
    left: usize,
    right: usize,
) -> Result<(), Memory>
    requires order { left ≤ right }
    requires sizes { right + (right - left) ≡ length stack.old.items }
    ensures { OnOk result (Performs (right - left) left
        (λ v. apply Sub (right - left) (right - left) (seen v stack.old.items left)
        (seen v stack.old.items right))
        cells.old.items cells.new.items stack.old.items stack.new.items) }
{
    sums_by_carries();
    differences_by_complements();
    operations_see_their_bits();
    negate(cells, stack, right)?;
    let top = stack.len();
    ripple(cells, stack, left, right, right - left, ONE)?;
    move_down(stack, left, top, right - left);
    Ok(())
}

/// Puts the negative of a number in its place, the bits from `from` on.
pub fn oppose(cells: &mut Vec<Cell>, stack: &mut Vec<u32>, from: usize) -> Result<(), Memory>
    requires order { from ≤ length stack.old.items }
    ensures { OnOk result (Performs (length stack.old.items - from) from
        (λ v. negative (length stack.old.items - from) (seen v stack.old.items from))
        cells.old.items cells.new.items stack.old.items stack.new.items) }
{
    sums_by_carries();
    differences_by_complements();
    operations_see_their_bits();
    let count = stack.len() - from;
    negate(cells, stack, from)?;
    let zeros = stack.len();
    push_zeros(stack, count)?;
    let top = stack.len();
    ripple(cells, stack, zeros, from, count, ONE)?;
    move_down(stack, from, top, count);
    Ok(())
}

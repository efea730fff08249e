//! Shifts of operands on the stack, by a stage for each bit of the amount.

ghost use Rattle.std.specs.Prelude.{◌≡◌, ℕ, ◌+◌, ◌-◌, ◌<◌, ◌≤◌, OnOk, cond, length, min, slice_index_or};
ghost use Rattle.eq_net.specs.Numbers.{number};
ghost use Rattle.eq_net.specs.inner.Cells.{Performs, Written, seen};
ghost use Rattle.eq_net.specs.inner.CellSteps.{moved, place, staged, takes};

use super::gates::{Cell, Kind};
use super::numbers::{move_down, number_at, push_lowered, push_raised};
use super::rows::map;
use crate::arithmetic::capped_sum;
use crate::laws::{operations_see_their_bits, shifts_by_stages};
use eq_base::Memory;

/// Puts on top the `count` numbers from a place on, moved by as many places as `by`, with the constant 0 where none comes.
fn push_moved(
    up: bool,
    stack: &mut Vec<u32>,
    from: usize,
    count: usize,
    by: usize,
) -> Result<(), Memory>
    requires { from + count ≤ length stack.old.items }
    ensures written { OnOk result
        (Written (length stack.old.items) count stack.old.items stack.new.items) }
    ensures put { OnOk result
        ((j : ℕ) → j < count → slice_index_or stack.new.items (length stack.old.items + j) 0 ≡
        cond {A = ℕ} (takes up count by j)
        (slice_index_or stack.old.items (from + place up by j) 0) 0) }
{
    if up {
        push_raised(stack, from, count, by)
    } else {
        push_lowered(stack, from, count, by)
    }
}

/// Moves the bits from a place on, the uppermost of the stack, by as many places as `by` where the bit is 1.
fn stage(
    up: bool,
    cells: &mut Vec<Cell>,
    stack: &mut Vec<u32>,
    from: usize,
    by: usize,
    bit: u32,
) -> Result<(), Memory>
    requires from { from ≤ length stack.old.items }
    ensures { OnOk result (Performs (length stack.old.items - from) from
        (λ v. staged up (length stack.old.items - from) by (v.cells bit)
        (seen v stack.old.items from))
        cells.old.items cells.new.items stack.old.items stack.new.items) }
{
    let top = stack.len();
    push_moved(up, stack, from, top - from, by)?;
    let result = stack.len();
    map(Kind::Choose, cells, stack, top, from, top - from, bit)?;
    move_down(stack, from, result, top - from);
    Ok(())
}

/// Moves the bits from `top` on, the uppermost of the stack, by the number that stands from `right` up to them.
fn stages(
    up: bool,
    cells: &mut Vec<Cell>,
    stack: &mut Vec<u32>,
    right: usize,
    top: usize,
) -> Result<(), Memory>
    requires order { right ≤ top }
    requires top { top ≤ length stack.old.items }
    ensures { OnOk result (Performs (length stack.old.items - top) top
        (λ v. moved up (length stack.old.items - top)
        (min (length stack.old.items - top) (number (top - right) (seen v stack.old.items right)))
        (seen v stack.old.items top))
        cells.old.items cells.new.items stack.old.items stack.new.items) }
{
    shifts_by_stages();
    let count = stack.len() - top;
    let mut by = capped_sum(1, 0, count);
    for j in 0..top - right {
        let bit = number_at(stack, right + j);
        stage(up, cells, stack, top, by, bit)?;
        by = capped_sum(by, by, count);
    }
    Ok(())
}

/// Puts a shift in the place of a value and its amount.
pub fn shift(
    up: bool,
    cells: &mut Vec<Cell>,
    stack: &mut Vec<u32>,
    left: usize,
    right: usize,
) -> Result<(), Memory>
    requires order { left ≤ right }
    requires sizes { right ≤ length stack.old.items }
    ensures { OnOk result (Performs (right - left) left
        (λ v. moved up (right - left)
        (min (right - left)
        (number (length stack.old.items - right) (seen v stack.old.items right)))
        (seen v stack.old.items left))
        cells.old.items cells.new.items stack.old.items stack.new.items) }
{
    operations_see_their_bits();
    let top = stack.len();
    push_raised(stack, left, right - left, 0)?;
    stages(up, cells, stack, right, top)?;
    move_down(stack, left, top, right - left);
    Ok(())
}

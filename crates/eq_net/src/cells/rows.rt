//! Cells for each bit of operands, the lowest bit first.

ghost use Rattle.std.specs.Prelude.{◌≡◌, ℕ, ◌+◌, ◌<◌, ◌≤◌, IfOk, OnOk, length};
ghost use Rattle.eq_net.specs.Numbers.{differ};
ghost use Rattle.eq_net.specs.Ripples.{carry as carry_of};
ghost use Rattle.eq_net.specs.inner.Cells.{Gives, Grown, Spells, Written, seen};
ghost use Rattle.eq_net.specs.inner.CellSteps.{folded, step_value};

use super::gates::{Cell, Kind, step, sum_and_carry};
use super::numbers::{number_at, push};
use eq_base::Memory;

/// What a value becomes over the bits from `left` and from `right` on.
pub fn fold(
    kind: Kind,
    cells: &mut Vec<Cell>,
    stack: &Vec<u32>,
    left: usize,
    right: usize,
    count: usize,
    start: u32,
) -> Result<u32, Memory>
    requires left { left + count ≤ length stack.now.items }
    requires right { right + count ≤ length stack.now.items }
    ensures grown { OnOk result (Grown cells.old.items cells.new.items) }
    ensures gives { IfOk result (λ m. Gives cells.new.items m
        (λ v. folded kind (v.cells start) count (seen v stack.now.items left)
        (seen v stack.now.items right))) }
{
    let mut value = start;
    for j in 0..count {
        value = step(
            kind,
            cells,
            value,
            number_at(stack, left + j),
            number_at(stack, right + j),
        )?;
    }
    Ok(value)
}

/// Puts a cell on top for each of the bits from `left` and from `right` on, with z as its third operand.
pub fn map(
    kind: Kind,
    cells: &mut Vec<Cell>,
    stack: &mut Vec<u32>,
    left: usize,
    right: usize,
    count: usize,
    z: u32,
) -> Result<(), Memory>
    requires left { left + count ≤ length stack.old.items }
    requires right { right + count ≤ length stack.old.items }
    ensures grown { OnOk result (Grown cells.old.items cells.new.items) }
    ensures written { OnOk result
        (Written (length stack.old.items) count stack.old.items stack.new.items) }
    ensures spells { OnOk result
        (Spells cells.new.items stack.new.items (length stack.old.items) count
        (λ v j. step_value kind (seen v stack.old.items left j) (seen v stack.old.items right j)
        (v.cells z))) }
{
    for j in 0..count {
        let x = number_at(stack, left + j);
        let y = number_at(stack, right + j);
        let made = step(kind, cells, x, y, z)?;
        push(stack, made)?;
    }
    Ok(())
}

/// Puts a sum's bits on top, of the bits from `left` and from `right` on and a carry.
pub fn ripple(
    cells: &mut Vec<Cell>,
    stack: &mut Vec<u32>,
    left: usize,
    right: usize,
    count: usize,
    start: u32,
) -> Result<(), Memory>
    requires left { left + count ≤ length stack.old.items }
    requires right { right + count ≤ length stack.old.items }
    ensures grown { OnOk result (Grown cells.old.items cells.new.items) }
    ensures written { OnOk result
        (Written (length stack.old.items) count stack.old.items stack.new.items) }
    ensures spells { OnOk result
        (Spells cells.new.items stack.new.items (length stack.old.items) count
        (λ v j. differ (differ (seen v stack.old.items left j) (seen v stack.old.items right j))
        (carry_of (v.cells start) (seen v stack.old.items left) (seen v stack.old.items right) j))) }
{
    let mut carry = start;
    for j in 0..count {
        let x = number_at(stack, left + j);
        let y = number_at(stack, right + j);
        let made = sum_and_carry(cells, x, y, carry)?;
        carry = made.1;
        push(stack, made.0)?;
    }
    Ok(())
}

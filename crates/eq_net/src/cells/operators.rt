//! The operators of words, each on the stack in the place of its operands.

ghost use Rattle.std.specs.Prelude.{◌≡◌, ◌-◌, ◌≤◌, OnOk, false, length};
ghost use Rattle.eq_net.specs.Meaning.{result_size};
ghost use Rattle.eq_net.specs.Operators.{apply, has_free_sizes, one_bit, reduce};
ghost use Rattle.eq_net.specs.inner.Cells.{Performs, seen};

use super::gates::{Cell, Kind};
use super::shifts::shift;
use super::sums::{combine, difference, sum};
use super::truths::{any, equality, every, logical, odd, order};
use crate::laws::shifts_by_stages;
use crate::types::{RedOp, WordOp};
use eq_base::Memory;

/// Puts an operation in the place of its operands, the cells from `left` up to `right` and those from there on.
pub fn operate(
    op: WordOp,
    cells: &mut Vec<Cell>,
    stack: &mut Vec<u32>,
    left: usize,
    right: usize,
) -> Result<(), Memory>
    requires order { left ≤ right }
    requires right { right ≤ length stack.old.items }
    requires sizes { has_free_sizes op ≡ false → right - left ≡ length stack.old.items - right }
    ensures { OnOk result (Performs (result_size op (right - left)) left
        (λ v. apply op (right - left) (length stack.old.items - right)
        (seen v stack.old.items left) (seen v stack.old.items right))
        cells.old.items cells.new.items stack.old.items stack.new.items) }
{
    shifts_by_stages();
    let width = right - left;
    match op {
        WordOp::And => combine(Kind::And, cells, stack, left, right),
        WordOp::Or => combine(Kind::Or, cells, stack, left, right),
        WordOp::Xor => combine(Kind::Xor, cells, stack, left, right),
        WordOp::Xnor => combine(Kind::Xnor, cells, stack, left, right),
        WordOp::Add => sum(cells, stack, left, right),
        WordOp::Sub => difference(cells, stack, left, right),
        WordOp::Shl => shift(true, cells, stack, left, right),
        WordOp::Shr => shift(false, cells, stack, left, right),
        WordOp::Eq => equality(false, cells, stack, left, right),
        WordOp::Ne => equality(true, cells, stack, left, right),
        WordOp::Lt => order(false, cells, stack, left, right, width, left),
        WordOp::Le => order(true, cells, stack, right, left, width, left),
        WordOp::Gt => order(false, cells, stack, right, left, width, left),
        WordOp::Ge => order(true, cells, stack, left, right, width, left),
        WordOp::LogAnd => logical(Kind::And, cells, stack, left, right),
        WordOp::LogOr => logical(Kind::Or, cells, stack, left, right),
    }
}

/// Puts a reduction in the place of its operand, the cells from `from` on.
pub fn reduce_to_one(
    op: RedOp,
    cells: &mut Vec<Cell>,
    stack: &mut Vec<u32>,
    from: usize,
) -> Result<(), Memory>
    requires from { from ≤ length stack.old.items }
    ensures { OnOk result (Performs 1 from
        (λ v. one_bit (reduce op (length stack.old.items - from) (seen v stack.old.items from)))
        cells.old.items cells.new.items stack.old.items stack.new.items) }
{
    match op {
        RedOp::And => every(false, cells, stack, from),
        RedOp::Or => any(false, cells, stack, from),
        RedOp::Xor => odd(false, cells, stack, from),
        RedOp::Nand => every(true, cells, stack, from),
        RedOp::Nor => any(true, cells, stack, from),
        RedOp::Xnor => odd(true, cells, stack, from),
        RedOp::Zero => any(true, cells, stack, from),
    }
}

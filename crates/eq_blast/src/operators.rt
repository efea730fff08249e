//! The operators of words, each on the stack in the place of its operands.

ghost use Rattle.std.specs.Prelude.{◌≡◌, ℕ, ◌+◌, ◌-◌, ◌≤◌, ◌^◌, OnOk, false, length};
ghost use Rattle.eq_net.specs.Meaning.{result_size};
ghost use Rattle.eq_net.specs.Numbers.{all_ones};
ghost use Rattle.eq_net.specs.Operators.{apply, apply_cost, has_free_sizes, one_bit, reduce, reduce_cost};
ghost use Rattle.eq_blast.specs.inner.Growing.{HasConstants};
ghost use Rattle.eq_blast.specs.inner.Needs.{needs, one_needs};
ghost use Rattle.eq_blast.specs.inner.Stack.{AreThere, Performs, seen};

use crate::gates::Kind;
use crate::shifts::shift;
use crate::sums::{combine, difference, sum};
use crate::truths::{any, equality, every, logical, odd, order};
use eq_base::Memory;
use eq_bits::Builder;
use eq_net::laws::shifts_by_stages;
use eq_net::{RedOp, WordOp};

/// Puts an operation in the place of its operands, the nodes from `left` up to `right` and those from there on.
pub fn operate(
    op: WordOp,
    builder: &mut Builder,
    stack: &mut Vec<u32>,
    left: usize,
    right: usize,
) -> Result<(), Memory>
    requires order { left ≤ right }
    requires right { right ≤ length stack.old.items }
    requires sizes { has_free_sizes op ≡ false → right - left ≡ length stack.old.items - right }
    requires there { AreThere builder.old stack.old.items }
    requires constants { HasConstants builder.old }
    requires room { length builder.old + apply_cost op (right - left)
        (length stack.old.items - right) ≤ 2 ^ 21 }
    ensures { OnOk result
        (Performs (apply_cost op (right - left) (length stack.old.items - right))
        (result_size op (right - left)) left
        (λ x. apply op (right - left) (length stack.old.items - right)
        (seen x stack.old.items left) (seen x stack.old.items right))
        (λ d. needs op (right - left) (length stack.old.items - right)
        (seen d stack.old.items left) (seen d stack.old.items right))
        builder.old builder.new stack.old.items stack.new.items) }
{
    shifts_by_stages();
    let width = right - left;
    match op {
        WordOp::And => combine(Kind::And, builder, stack, left, right),
        WordOp::Or => combine(Kind::Or, builder, stack, left, right),
        WordOp::Xor => combine(Kind::Xor, builder, stack, left, right),
        WordOp::Xnor => combine(Kind::Xnor, builder, stack, left, right),
        WordOp::Add => sum(builder, stack, left, right),
        WordOp::Sub => difference(builder, stack, left, right),
        WordOp::Shl => shift(true, builder, stack, left, right),
        WordOp::Shr => shift(false, builder, stack, left, right),
        WordOp::Eq => equality(false, builder, stack, left, right),
        WordOp::Ne => equality(true, builder, stack, left, right),
        WordOp::Lt => order(false, builder, stack, left, right, width, left),
        WordOp::Le => order(true, builder, stack, right, left, width, left),
        WordOp::Gt => order(false, builder, stack, right, left, width, left),
        WordOp::Ge => order(true, builder, stack, left, right, width, left),
        WordOp::LogAnd => logical(Kind::And, builder, stack, left, right),
        WordOp::LogOr => logical(Kind::Or, builder, stack, left, right),
    }
}

/// Puts a reduction in the place of its operand, the nodes from `from` on.
pub fn reduce_to_one(
    op: RedOp,
    builder: &mut Builder,
    stack: &mut Vec<u32>,
    from: usize,
) -> Result<(), Memory>
    requires from { from ≤ length stack.old.items }
    requires there { AreThere builder.old stack.old.items }
    requires constants { HasConstants builder.old }
    requires room { length builder.old + reduce_cost op (length stack.old.items - from) ≤ 2 ^ 21 }
    ensures { OnOk result (Performs (reduce_cost op (length stack.old.items - from)) 1 from
        (λ x. one_bit (reduce op (length stack.old.items - from) (seen x stack.old.items from)))
        (λ d. one_needs (all_ones (length stack.old.items - from) (seen d stack.old.items from)))
        builder.old builder.new stack.old.items stack.new.items) }
{
    match op {
        RedOp::And => every(false, builder, stack, from),
        RedOp::Or => any(false, builder, stack, from),
        RedOp::Xor => odd(false, builder, stack, from),
        RedOp::Nand => every(true, builder, stack, from),
        RedOp::Nor => any(true, builder, stack, from),
        RedOp::Xnor => odd(true, builder, stack, from),
        RedOp::Zero => any(true, builder, stack, from),
    }
}

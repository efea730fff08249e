//! Operations of operands on the stack that give one bit, and the choice by one.

ghost use Rattle.std.specs.Prelude.{◌≡◌, ◌==◌, ℕ, ◌+◌, ◌-◌, ◌*◌, ◌<◌, ◌≤◌, ◌^◌, Bool, IfOk, OnOk, cond, length, nat_lt, ◌&&◌};
ghost use Rattle.eq_net.specs.Operators.{choose, choose_cost, one_bit};
ghost use Rattle.eq_net.specs.Numbers.{all_ones, differ, number, parity, some_one};
ghost use Rattle.eq_blast.specs.inner.Growing.{Gives, Grown, HasConstants};
ghost use Rattle.eq_blast.specs.inner.Needs.{choose_needs, one_needs};
ghost use Rattle.eq_blast.specs.inner.Stack.{AreThere, Performs, seen};
ghost use Rattle.eq_blast.specs.inner.Steps.{folded, step_cost, step_has, step_value};

use crate::gates::{Kind, step};
use crate::rows::{fold, map};
use crate::stack::{leave_one, move_down};
use eq_base::Memory;
use eq_bits::Builder;
use eq_net::laws::order_from_the_lowest;

/// The node, or its negation.
fn flipped(negate: bool, builder: &mut Builder, node: u32) -> Result<u32, Memory>
    requires there { node < length builder.old }
    requires room { length builder.old + 4 < 2 ^ 32 }
    ensures grown { OnOk result (Grown (cond {A = ℕ} negate 1 0) builder.old builder.new) }
    ensures gives { IfOk result
        (λ m. Gives builder.new m (λ x. differ negate (x node)) (λ d. d node)) }
{
    if negate {
        step(Kind::Not, builder, node, node, node)
    } else {
        Ok(node)
    }
}

/// Puts what a value becomes over the bits from `left` and from `right` on, or its negation, in the place of all from `to` on.
pub fn test(
    kind: Kind,
    negate: bool,
    builder: &mut Builder,
    stack: &mut Vec<u32>,
    left: usize,
    right: usize,
    count: usize,
    start: u32,
    to: usize,
) -> Result<(), Memory>
    requires left { left + count ≤ length stack.old.items }
    requires right { right + count ≤ length stack.old.items }
    requires to { to ≤ length stack.old.items }
    requires there { AreThere builder.old stack.old.items }
    requires start { start < length builder.old }
    requires room { length builder.old + 4 * (count * step_cost kind + 1) + 4 * count < 2 ^ 32 }
    ensures { OnOk result (Performs (count * step_cost kind + cond {A = ℕ} negate 1 0) 1 to
        (λ x. one_bit
        (differ negate
        (folded kind (x start) count (seen x stack.old.items left) (seen x stack.old.items right))))
        (λ d. one_needs
        (d start && (all_ones count (seen d stack.old.items left) &&
        all_ones count (seen d stack.old.items right))))
        builder.old builder.new stack.old.items stack.new.items) }
{
    let value = fold(kind, builder, stack, left, right, count, start)?;
    let truth = flipped(negate, builder, value)?;
    leave_one(stack, to, truth)
}

/// Whether two numbers are equal, or not, in the place of both.
pub fn equality(
    negate: bool,
    builder: &mut Builder,
    stack: &mut Vec<u32>,
    left: usize,
    right: usize,
) -> Result<(), Memory>
    requires order { left ≤ right }
    requires sizes { right + (right - left) ≡ length stack.old.items }
    requires there { AreThere builder.old stack.old.items }
    requires constants { HasConstants builder.old }
    requires room { length builder.old + 16 * ((right - left) + 1) < 2 ^ 32 }
    ensures { OnOk result (Performs (3 * (right - left) + cond {A = ℕ} negate 1 0) 1 left
        (λ x. one_bit
        (differ negate
        (number (right - left) (seen x stack.old.items left) ==
        number (right - left) (seen x stack.old.items right))))
        (λ d. one_needs
        (all_ones (right - left) (seen d stack.old.items left) &&
        all_ones (right - left) (seen d stack.old.items right)))
        builder.old builder.new stack.old.items stack.new.items) }
{
    order_from_the_lowest();
    test(
        Kind::Equal,
        negate,
        builder,
        stack,
        left,
        right,
        right - left,
        1,
        left,
    )
}

/// Whether the first of two numbers is below the second, or not, in the place of both.
pub fn order(
    negate: bool,
    builder: &mut Builder,
    stack: &mut Vec<u32>,
    first: usize,
    second: usize,
    count: usize,
    to: usize,
) -> Result<(), Memory>
    requires first { first + count ≤ length stack.old.items }
    requires second { second + count ≤ length stack.old.items }
    requires to { to ≤ length stack.old.items }
    requires there { AreThere builder.old stack.old.items }
    requires constants { HasConstants builder.old }
    requires room { length builder.old + 16 * (count + 1) < 2 ^ 32 }
    ensures { OnOk result (Performs (2 * count + cond {A = ℕ} negate 1 0) 1 to
        (λ x. one_bit
        (differ negate
        (nat_lt (number count (seen x stack.old.items first))
        (number count (seen x stack.old.items second)))))
        (λ d. one_needs
        (all_ones count (seen d stack.old.items first) &&
        all_ones count (seen d stack.old.items second)))
        builder.old builder.new stack.old.items stack.new.items) }
{
    order_from_the_lowest();
    test(
        Kind::Less,
        negate,
        builder,
        stack,
        first,
        second,
        count,
        0,
        to,
    )
}

/// Whether one of the bits from a place on is 1.
fn some(builder: &mut Builder, stack: &Vec<u32>, from: usize, count: usize) -> Result<u32, Memory>
    requires from { from + count ≤ length stack.now.items }
    requires there { AreThere builder.old stack.now.items }
    requires constants { HasConstants builder.old }
    requires room { length builder.old + 4 * count < 2 ^ 32 }
    ensures grown { OnOk result (Grown (4 * count) builder.old builder.new) }
    ensures gives { IfOk result
        (λ m. Gives builder.new m (λ x. some_one count (seen x stack.now.items from))
        (λ d. all_ones count (seen d stack.now.items from))) }
{
    fold(Kind::Or, builder, stack, from, from, count, 0)
}

/// A gate of the truths of both operands, in their place.
pub fn logical(
    kind: Kind,
    builder: &mut Builder,
    stack: &mut Vec<u32>,
    left: usize,
    right: usize,
) -> Result<(), Memory>
    requires order { left ≤ right }
    requires sizes { right ≤ length stack.old.items }
    requires there { AreThere builder.old stack.old.items }
    requires constants { HasConstants builder.old }
    requires room { length builder.old + 8 *
        ((right - left) + (length stack.old.items - right)) + 8 < 2 ^ 32 }
    ensures { OnOk result
        (Performs (4 * ((right - left) + (length stack.old.items - right)) + 4) 1 left
        (λ x. one_bit
        (step_value kind (some_one (right - left) (seen x stack.old.items left))
        (some_one (length stack.old.items - right) (seen x stack.old.items right))
        (some_one (length stack.old.items - right) (seen x stack.old.items right))))
        (λ d. one_needs
        (all_ones (right - left) (seen d stack.old.items left) &&
        all_ones (length stack.old.items - right) (seen d stack.old.items right)))
        builder.old builder.new stack.old.items stack.new.items) }
{
    let x = some(builder, stack, left, right - left)?;
    let y = some(builder, stack, right, stack.len() - right)?;
    let truth = step(kind, builder, x, y, y)?;
    leave_one(stack, left, truth)
}

/// Puts one of two operands, from `left` and from `right` on, in the place of all: the first where the condition, from `from`
/// up to `left`, isn't zero.
pub fn choose_one(
    builder: &mut Builder,
    stack: &mut Vec<u32>,
    from: usize,
    left: usize,
    right: usize,
) -> Result<(), Memory>
    requires condition { from ≤ left }
    requires order { left ≤ right }
    requires sizes { right + (right - left) ≡ length stack.old.items }
    requires there { AreThere builder.old stack.old.items }
    requires constants { HasConstants builder.old }
    requires room { length builder.old + 8 * ((right - left) + (left - from)) < 2 ^ 32 }
    ensures { OnOk result (Performs (choose_cost (left - from) (right - left)) (right - left) from
        (λ x. choose (left - from) (seen x stack.old.items from) (seen x stack.old.items left)
        (seen x stack.old.items right))
        (λ d. choose_needs (left - from) (seen d stack.old.items from)
        (seen d stack.old.items left) (seen d stack.old.items right))
        builder.old builder.new stack.old.items stack.new.items) }
{
    let condition = some(builder, stack, from, left - from)?;
    let top = stack.len();
    map(
        Kind::Choose,
        builder,
        stack,
        left,
        right,
        right - left,
        condition,
    )?;
    move_down(stack, from, top, right - left);
    Ok(())
}

/// Whether all bits from a place on are 1, or not, in their place.
pub fn every(
    negate: bool,
    builder: &mut Builder,
    stack: &mut Vec<u32>,
    from: usize,
) -> Result<(), Memory>
    requires from { from ≤ length stack.old.items }
    requires there { AreThere builder.old stack.old.items }
    requires constants { HasConstants builder.old }
    requires room { length builder.old + 32 * ((length stack.old.items - from) + 1) < 2 ^ 32 }
    ensures { OnOk result
        (Performs ((length stack.old.items - from) + cond {A = ℕ} negate 1 0) 1 from
        (λ x. one_bit
        (differ negate (all_ones (length stack.old.items - from) (seen x stack.old.items from))))
        (λ d. one_needs (all_ones (length stack.old.items - from) (seen d stack.old.items from)))
        builder.old builder.new stack.old.items stack.new.items) }
{
    let count = stack.len() - from;
    test(
        Kind::And,
        negate,
        builder,
        stack,
        from,
        from,
        count,
        1,
        from,
    )
}

/// Whether one of the bits from a place on is 1, or none, in their place.
pub fn any(
    negate: bool,
    builder: &mut Builder,
    stack: &mut Vec<u32>,
    from: usize,
) -> Result<(), Memory>
    requires from { from ≤ length stack.old.items }
    requires there { AreThere builder.old stack.old.items }
    requires constants { HasConstants builder.old }
    requires room { length builder.old + 32 * ((length stack.old.items - from) + 1) < 2 ^ 32 }
    ensures { OnOk result
        (Performs (4 * (length stack.old.items - from) + cond {A = ℕ} negate 1 0) 1 from
        (λ x. one_bit
        (differ negate (some_one (length stack.old.items - from) (seen x stack.old.items from))))
        (λ d. one_needs (all_ones (length stack.old.items - from) (seen d stack.old.items from)))
        builder.old builder.new stack.old.items stack.new.items) }
{
    let count = stack.len() - from;
    test(Kind::Or, negate, builder, stack, from, from, count, 0, from)
}

/// Whether an odd number of the bits from a place on is 1, or not, in their place.
pub fn odd(
    negate: bool,
    builder: &mut Builder,
    stack: &mut Vec<u32>,
    from: usize,
) -> Result<(), Memory>
    requires from { from ≤ length stack.old.items }
    requires there { AreThere builder.old stack.old.items }
    requires constants { HasConstants builder.old }
    requires room { length builder.old + 32 * ((length stack.old.items - from) + 1) < 2 ^ 32 }
    ensures { OnOk result
        (Performs ((length stack.old.items - from) + cond {A = ℕ} negate 1 0) 1 from
        (λ x. one_bit
        (differ negate (parity (length stack.old.items - from) (seen x stack.old.items from))))
        (λ d. one_needs (all_ones (length stack.old.items - from) (seen d stack.old.items from)))
        builder.old builder.new stack.old.items stack.new.items) }
{
    let count = stack.len() - from;
    test(
        Kind::Xor,
        negate,
        builder,
        stack,
        from,
        from,
        count,
        0,
        from,
    )
}

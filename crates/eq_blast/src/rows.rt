//! Gates for each bit of operands, the lowest bit first.

ghost use Rattle.std.specs.Prelude.{◌≡◌, ℕ, suc, ◌+◌, ◌*◌, ◌<◌, ◌≤◌, ◌^◌, IfOk, OnOk, length, ◌&&◌};
ghost use Rattle.eq_net.specs.Numbers.{all_ones, differ};
ghost use Rattle.eq_net.specs.Ripples.{carry as carry_of};
ghost use Rattle.eq_blast.specs.inner.Growing.{Gives, Grown};
ghost use Rattle.eq_blast.specs.inner.Stack.{AreThere, Spells, Written, seen};
ghost use Rattle.eq_blast.specs.inner.Steps.{folded, step_cost, step_has, step_value};

use crate::gates::{Kind, step};
use crate::stack::{node, push};
use eq_base::Memory;
use eq_bits::Builder;

/// What a value becomes over the bits from `left` and from `right` on.
pub fn fold(
    kind: Kind,
    builder: &mut Builder,
    stack: &Vec<u32>,
    left: usize,
    right: usize,
    count: usize,
    start: u32,
) -> Result<u32, Memory>
    requires left { left + count ≤ length stack.now.items }
    requires right { right + count ≤ length stack.now.items }
    requires there { AreThere builder.old stack.now.items }
    requires start { start < length builder.old }
    requires room { length builder.old + 4 * count < 2 ^ 32 }
    ensures grown { OnOk result (Grown (count * step_cost kind) builder.old builder.new) }
    ensures gives { IfOk result (λ m. Gives builder.new m
        (λ x. folded kind (x start) count (seen x stack.now.items left)
        (seen x stack.now.items right))
        (λ d. d start &&
        (all_ones count (seen d stack.now.items left) &&
        all_ones count (seen d stack.now.items right)))) }
{
    let mut value = start;
    for j in 0..count {
        value = step(
            kind,
            builder,
            value,
            node(stack, left + j),
            node(stack, right + j),
        )?;
    }
    Ok(value)
}

/// Puts a gate on top for each of the bits from `left` and from `right` on, with z as its third operand.
pub fn map(
    kind: Kind,
    builder: &mut Builder,
    stack: &mut Vec<u32>,
    left: usize,
    right: usize,
    count: usize,
    z: u32,
) -> Result<(), Memory>
    requires left { left + count ≤ length stack.old.items }
    requires right { right + count ≤ length stack.old.items }
    requires there { AreThere builder.old stack.old.items }
    requires z { z < length builder.old }
    requires room { length builder.old + 4 * count < 2 ^ 32 }
    ensures grown { OnOk result (Grown (count * step_cost kind) builder.old builder.new) }
    ensures written { OnOk result
        (Written (length stack.old.items) count stack.old.items stack.new.items) }
    ensures spells { OnOk result (Spells builder.new stack.new.items (length stack.old.items) count
        (λ x j. step_value kind (seen x stack.old.items left j) (seen x stack.old.items right j)
        (x z))
        (λ d j. step_has kind (seen d stack.old.items left j) (seen d stack.old.items right j)
        (d z))) }
{
    for j in 0..count {
        let x = node(stack, left + j);
        let y = node(stack, right + j);
        let made = step(kind, builder, x, y, z)?;
        push(stack, made)?;
    }
    Ok(())
}

/// Puts a sum's bits on top, of the bits from `left` and from `right` on and a carry.
pub fn ripple(
    builder: &mut Builder,
    stack: &mut Vec<u32>,
    left: usize,
    right: usize,
    count: usize,
    start: u32,
) -> Result<(), Memory>
    requires left { left + count ≤ length stack.old.items }
    requires right { right + count ≤ length stack.old.items }
    requires there { AreThere builder.old stack.old.items }
    requires start { start < length builder.old }
    requires room { length builder.old + 8 * count < 2 ^ 32 }
    ensures grown { OnOk result (Grown (count * 4) builder.old builder.new) }
    ensures written { OnOk result
        (Written (length stack.old.items) count stack.old.items stack.new.items) }
    ensures spells { OnOk result (Spells builder.new stack.new.items (length stack.old.items) count
        (λ x j. differ (differ (seen x stack.old.items left j) (seen x stack.old.items right j))
        (carry_of (x start) (seen x stack.old.items left) (seen x stack.old.items right) j))
        (λ d j. d start &&
        (all_ones (suc j) (seen d stack.old.items left) &&
        all_ones (suc j) (seen d stack.old.items right)))) }
{
    let mut carry = start;
    for j in 0..count {
        let x = node(stack, left + j);
        let y = node(stack, right + j);
        let sum = step(Kind::Sum, builder, x, y, carry)?;
        carry = step(Kind::Carry, builder, x, y, carry)?;
        push(stack, sum)?;
    }
    Ok(())
}

//! Operations of operands on the stack that keep their width: the bits from `left` up to `right`, and those from there on.

ghost use Rattle.std.specs.Prelude.{◌≡◌, ℕ, suc, ◌+◌, ◌-◌, ◌*◌, ◌<◌, ◌≤◌, ◌^◌, OnOk, length, not};
ghost use Rattle.eq_net.specs.Operators.{apply, apply_cost, negative};
ghost use Rattle.eq_net.specs.Numbers.{all_ones};
ghost use Rattle.eq_net.specs.declared.types.WordOp.TheVariants.{Add, Sub};
ghost use Rattle.eq_blast.specs.inner.Growing.{HasConstants};
ghost use Rattle.eq_blast.specs.inner.Needs.{needs};
ghost use Rattle.eq_blast.specs.inner.Stack.{AreThere, Performs, seen};
ghost use Rattle.eq_blast.specs.inner.Steps.{step_cost, step_has, step_value};

use crate::gates::Kind;
use crate::rows::{map, ripple};
use crate::stack::{move_down, push_zeros};
use eq_base::Memory;
use eq_bits::Builder;
use eq_net::laws::{differences_by_complements, operations_see_their_bits, sums_by_carries};

/// Puts a gate for each place in the place of both operands.
pub fn combine(
    kind: Kind,
    builder: &mut Builder,
    stack: &mut Vec<u32>,
    left: usize,
    right: usize,
) -> Result<(), Memory>
    requires order { left ≤ right }
    requires sizes { right + (right - left) ≡ length stack.old.items }
    requires there { AreThere builder.old stack.old.items }
    requires constants { HasConstants builder.old }
    requires room { length builder.old + 4 * (right - left) < 2 ^ 32 }
    ensures { OnOk result (Performs ((right - left) * step_cost kind) (right - left) left
        (λ x j. step_value kind (seen x stack.old.items left j) (seen x stack.old.items right j)
        (x 0))
        (λ d j. step_has kind (seen d stack.old.items left j) (seen d stack.old.items right j)
        (d 0))
        builder.old builder.new stack.old.items stack.new.items) }
{
    let top = stack.len();
    map(kind, builder, stack, left, right, right - left, 0)?;
    move_down(stack, left, top, right - left);
    Ok(())
}

/// Negates the bits from a place on.
pub fn negate(builder: &mut Builder, stack: &mut Vec<u32>, from: usize) -> Result<(), Memory>
    requires order { from ≤ length stack.old.items }
    requires there { AreThere builder.old stack.old.items }
    requires constants { HasConstants builder.old }
    requires room { length builder.old + 4 * (length stack.old.items - from) < 2 ^ 32 }
    ensures { OnOk result
        (Performs (length stack.old.items - from) (length stack.old.items - from) from
        (λ x j. not (seen x stack.old.items from j)) (λ d j. seen d stack.old.items from j)
        builder.old builder.new stack.old.items stack.new.items) }
{
    let top = stack.len();
    map(Kind::Not, builder, stack, from, from, top - from, 0)?;
    move_down(stack, from, top, top - from);
    Ok(())
}

/// Puts a sum in the place of its operands.
pub fn sum(
    builder: &mut Builder,
    stack: &mut Vec<u32>,
    left: usize,
    right: usize,
) -> Result<(), Memory>
    requires order { left ≤ right }
    requires sizes { right + (right - left) ≡ length stack.old.items }
    requires there { AreThere builder.old stack.old.items }
    requires constants { HasConstants builder.old }
    requires room { length builder.old + 8 * (right - left) < 2 ^ 32 }
    ensures { OnOk result (Performs (5 * (right - left)) (right - left) left
        (λ x. apply Add (right - left) (right - left) (seen x stack.old.items left)
        (seen x stack.old.items right))
        (λ d. needs Add (right - left) (right - left) (seen d stack.old.items left)
        (seen d stack.old.items right))
        builder.old builder.new stack.old.items stack.new.items) }
{
    sums_by_carries();
    let top = stack.len();
    ripple(builder, stack, left, right, right - left, 0)?;
    move_down(stack, left, top, right - left);
    Ok(())
}

/// Puts a difference in the place of its operands.
pub fn difference(
    builder: &mut Builder,
    stack: &mut Vec<u32>,
    left: usize,
    right: usize,
) -> Result<(), Memory>
    requires order { left ≤ right }
    requires sizes { right + (right - left) ≡ length stack.old.items }
    requires there { AreThere builder.old stack.old.items }
    requires constants { HasConstants builder.old }
    requires room { length builder.old + 16 * (right - left) < 2 ^ 32 }
    ensures { OnOk result (Performs (6 * (right - left)) (right - left) left
        (λ x. apply Sub (right - left) (right - left) (seen x stack.old.items left)
        (seen x stack.old.items right))
        (λ d. needs Sub (right - left) (right - left) (seen d stack.old.items left)
        (seen d stack.old.items right))
        builder.old builder.new stack.old.items stack.new.items) }
{
    sums_by_carries();
    differences_by_complements();
    operations_see_their_bits();
    negate(builder, stack, right)?;
    let top = stack.len();
    ripple(builder, stack, left, right, right - left, 1)?;
    move_down(stack, left, top, right - left);
    Ok(())
}

/// Puts the negative of a number in its place, the bits from `from` on.
pub fn oppose(builder: &mut Builder, stack: &mut Vec<u32>, from: usize) -> Result<(), Memory>
    requires order { from ≤ length stack.old.items }
    requires there { AreThere builder.old stack.old.items }
    requires constants { HasConstants builder.old }
    requires room { length builder.old + 16 * (length stack.old.items - from) < 2 ^ 32 }
    ensures { OnOk result
        (Performs (6 * (length stack.old.items - from)) (length stack.old.items - from) from
        (λ x. negative (length stack.old.items - from) (seen x stack.old.items from))
        (λ d j. all_ones (suc j) (seen d stack.old.items from))
        builder.old builder.new stack.old.items stack.new.items) }
{
    sums_by_carries();
    differences_by_complements();
    operations_see_their_bits();
    let count = stack.len() - from;
    negate(builder, stack, from)?;
    let zeros = stack.len();
    push_zeros(stack, count)?;
    let top = stack.len();
    ripple(builder, stack, zeros, from, count, 1)?;
    move_down(stack, from, top, count);
    Ok(())
}

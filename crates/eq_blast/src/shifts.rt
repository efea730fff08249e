//! Shifts of operands on the stack, by a stage for each bit of the amount.

ghost use Rattle.std.specs.Prelude.{◌≡◌, ℕ, ◌+◌, ◌-◌, ◌*◌, ◌/◌, ◌<◌, ◌≤◌, ◌^◌, Bool, OnOk, cond, length, min, slice_index_or, ◌&&◌};
ghost use Rattle.eq_net.specs.Numbers.{all_ones, number};
ghost use Rattle.eq_blast.specs.inner.Growing.{HasConstants};
ghost use Rattle.eq_blast.specs.inner.Shifts.{moved, own, place, staged, staged_has, takes};
ghost use Rattle.eq_blast.specs.inner.Stack.{AreThere, Performs, Written, seen};

use crate::gates::Kind;
use crate::rows::map;
use crate::stack::{move_down, node, push_lowered, push_raised};
use eq_base::Memory;
use eq_bits::Builder;
use eq_net::laws::{operations_see_their_bits, shifts_by_stages};

/// Puts on top the `count` nodes from a place on, moved by as many places as `by`, with the node 0 where none comes.
fn push_moved(
    up: bool,
    stack: &mut Vec<u32>,
    from: usize,
    count: usize,
    by: usize,
) -> Result<(), Memory>
    requires { from + count ≤ length stack.old.items }
    ensures written { OnOk result
        (Written (length stack.old.items) count stack.old.items stack.new.items) }
    ensures put { OnOk result
        ((j : ℕ) → j < count → slice_index_or stack.new.items (length stack.old.items + j) 0 ≡
        cond {A = ℕ} (takes up count by j)
        (slice_index_or stack.old.items (from + place up by j) 0) 0) }
{
    if up {
        push_raised(stack, from, count, by)
    } else {
        push_lowered(stack, from, count, by)
    }
}

/// Moves the bits from a place on, the uppermost `count` of the stack, by as many places as `by` where the bit is 1.
fn stage(
    up: bool,
    builder: &mut Builder,
    stack: &mut Vec<u32>,
    from: usize,
    by: usize,
    bit: u32,
) -> Result<(), Memory>
    requires from { from ≤ length stack.old.items }
    requires there { AreThere builder.old stack.old.items }
    requires constants { HasConstants builder.old }
    requires bit { bit < length builder.old }
    requires room { length builder.old + 4 * (length stack.old.items - from) < 2 ^ 32 }
    ensures { OnOk result
        (Performs (length stack.old.items - from) (length stack.old.items - from) from
        (λ x. staged up (length stack.old.items - from) by (x bit) (seen x stack.old.items from))
        (λ d. staged_has up (length stack.old.items - from) by (d bit)
        (seen d stack.old.items from))
        builder.old builder.new stack.old.items stack.new.items) }
{
    let top = stack.len();
    push_moved(up, stack, from, top - from, by)?;
    let result = stack.len();
    map(Kind::Choose, builder, stack, top, from, top - from, bit)?;
    move_down(stack, from, result, top - from);
    Ok(())
}

fn capped_sum(a: usize, b: usize, most: usize) -> usize
    requires { b ≤ most }
    ensures { result ≡ min most (a + b) }
{
    if a >= most - b { most } else { a + b }
}

/// Moves the bits from `top` on, the uppermost of the stack, by the number that stands from `right` up to them.
fn stages(
    up: bool,
    builder: &mut Builder,
    stack: &mut Vec<u32>,
    right: usize,
    top: usize,
) -> Result<(), Memory>
    requires order { right ≤ top }
    requires top { top ≤ length stack.old.items }
    requires there { AreThere builder.old stack.old.items }
    requires constants { HasConstants builder.old }
    requires room { length builder.old + (length stack.old.items - top) * (top - right) ≤ 2 ^ 21 }
    ensures { OnOk result
        (Performs ((top - right) * (length stack.old.items - top))
        (length stack.old.items - top) top
        (λ x. moved up (length stack.old.items - top)
        (min (length stack.old.items - top) (number (top - right) (seen x stack.old.items right)))
        (seen x stack.old.items top))
        (λ d i. own up (length stack.old.items - top) (seen d stack.old.items top) i &&
        all_ones (top - right) (seen d stack.old.items right))
        builder.old builder.new stack.old.items stack.new.items) }
{
    shifts_by_stages();
    let count = stack.len() - top;
    let mut by = capped_sum(1, 0, count);
    for j in 0..top - right {
        let bit = node(stack, right + j);
        stage(up, builder, stack, top, by, bit)?;
        by = capped_sum(by, by, count);
    }
    Ok(())
}

/// Puts a shift in the place of a value and its amount.
pub fn shift(
    up: bool,
    builder: &mut Builder,
    stack: &mut Vec<u32>,
    left: usize,
    right: usize,
) -> Result<(), Memory>
    requires order { left ≤ right }
    requires sizes { right ≤ length stack.old.items }
    requires there { AreThere builder.old stack.old.items }
    requires constants { HasConstants builder.old }
    requires room { length builder.old + (right - left) * (length stack.old.items - right) ≤
        2 ^ 21 }
    ensures { OnOk result
        (Performs ((right - left) * (length stack.old.items - right)) (right - left) left
        (λ x. moved up (right - left)
        (min (right - left)
        (number (length stack.old.items - right) (seen x stack.old.items right)))
        (seen x stack.old.items left))
        (λ d i. own up (right - left) (seen d stack.old.items left) i &&
        all_ones (length stack.old.items - right) (seen d stack.old.items right))
        builder.old builder.new stack.old.items stack.new.items) }
{
    operations_see_their_bits();
    let top = stack.len();
    push_raised(stack, left, right - left, 0)?;
    stages(up, builder, stack, right, top)?;
    move_down(stack, left, top, right - left);
    Ok(())
}

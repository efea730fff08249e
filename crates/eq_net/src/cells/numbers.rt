//! A stack of numbers of cells: the bits of operands, the lowest of each first.

ghost use Rattle.std.specs.Prelude.{◌≡◌, ℕ, ◌+◌, ◌-◌, ◌<◌, ◌≤◌, OnOk, cond, length, nat_le, nat_lt, slice_index_or};
ghost use Rattle.eq_net.specs.inner.Cells.{Written};

use eq_base::Memory;

/// The number at a place.
pub fn number_at(stack: &Vec<u32>, at: usize) -> u32
    requires { at < length stack.now.items }
    ensures { result ≡ slice_index_or stack.now.items at 0 }
{
    stack[at]
}

/// Writes a number.
fn put(stack: &mut Vec<u32>, at: usize, number: u32)
    requires { at < length stack.old.items }
    ensures size { length stack.new.items ≡ length stack.old.items }
    ensures there { slice_index_or stack.new.items at 0 ≡ number }
    ensures below { (k : ℕ) → k < at → slice_index_or stack.new.items k 0 ≡
        slice_index_or stack.old.items k 0 }
    ensures above { (k : ℕ) → at < k → slice_index_or stack.new.items k 0 ≡
        slice_index_or stack.old.items k 0 }
{
    stack[at] = number;
}

/// Puts a number on top.
pub fn push(stack: &mut Vec<u32>, number: u32) -> Result<(), Memory>
    ensures size { OnOk result (length stack.new.items ≡ length stack.old.items + 1) }
    ensures there { OnOk result (slice_index_or stack.new.items (length stack.old.items) 0 ≡ number) }
    ensures below { OnOk result
        ((k : ℕ) → k < length stack.old.items → slice_index_or stack.new.items k 0 ≡
        slice_index_or stack.old.items k 0) }
{
    stack.push(number)?;
    Ok(())
}

/// Drops all from a place on.
fn cut(stack: &mut Vec<u32>, to: usize)
    requires { to ≤ length stack.old.items }
    ensures size { length stack.new.items ≡ to }
    ensures kept { (k : ℕ) → k < to → slice_index_or stack.new.items k 0 ≡
        slice_index_or stack.old.items k 0 }
{
    stack.truncate(to);
}

/// Moves `width` numbers down from a place to another, and drops all above them.
pub fn move_down(stack: &mut Vec<u32>, to: usize, from: usize, width: usize)
    requires order { to ≤ from }
    requires there { from + width ≤ length stack.old.items }
    ensures written { Written to width stack.old.items stack.new.items }
    ensures moved { (j : ℕ) → j < width → slice_index_or stack.new.items (to + j) 0 ≡
        slice_index_or stack.old.items (from + j) 0 }
{
    for j in 0..width {
        let moved = number_at(stack, from + j);
        put(stack, to + j, moved);
    }
    cut(stack, to + width);
}

/// Puts one number in the place of all from a place on.
pub fn leave_one(stack: &mut Vec<u32>, from: usize, number: u32) -> Result<(), Memory>
    requires { from ≤ length stack.old.items }
    ensures written { OnOk result (Written from 1 stack.old.items stack.new.items) }
    ensures put { OnOk result
        ((j : ℕ) → j < 1 → slice_index_or stack.new.items (from + j) 0 ≡ number) }
{
    cut(stack, from);
    push(stack, number)
}

/// Puts `count` times the constant 0 on top.
pub fn push_zeros(stack: &mut Vec<u32>, count: usize) -> Result<(), Memory>
    ensures written { OnOk result
        (Written (length stack.old.items) count stack.old.items stack.new.items) }
    ensures put { OnOk result
        ((j : ℕ) → length stack.old.items ≤ j → j < length stack.new.items →
        slice_index_or stack.new.items j 0 ≡ 0) }
{
    for _ in 0..count {
        push(stack, 0)?;
    }
    Ok(())
}

/// Puts on top the `count` numbers from a place on, as many places up as `by`, with the constant 0 below them.
pub fn push_raised(stack: &mut Vec<u32>, from: usize, count: usize, by: usize) -> Result<(), Memory>
    requires { from + count ≤ length stack.old.items }
    ensures written { OnOk result
        (Written (length stack.old.items) count stack.old.items stack.new.items) }
    ensures put { OnOk result
        ((j : ℕ) → j < count → slice_index_or stack.new.items (length stack.old.items + j) 0 ≡
        cond {A = ℕ} (nat_le by j) (slice_index_or stack.old.items (from + (j - by)) 0) 0) }
{
    for j in 0..count {
        let moved = if by <= j {
            number_at(stack, from + (j - by))
        } else {
            0
        };
        push(stack, moved)?;
    }
    Ok(())
}

/// Puts on top the `count` numbers from a place on, as many places down as `by`, with the constant 0 above them.
pub fn push_lowered(
    stack: &mut Vec<u32>,
    from: usize,
    count: usize,
    by: usize,
) -> Result<(), Memory>
    requires { from + count ≤ length stack.old.items }
    ensures written { OnOk result
        (Written (length stack.old.items) count stack.old.items stack.new.items) }
    ensures put { OnOk result
        ((j : ℕ) → j < count → slice_index_or stack.new.items (length stack.old.items + j) 0 ≡
        cond {A = ℕ} (nat_lt j (count - by))
        (slice_index_or stack.old.items (from + (by + j)) 0) 0) }
{
    for j in 0..count {
        let moved = if by < count - j {
            number_at(stack, from + (by + j))
        } else {
            0
        };
        push(stack, moved)?;
    }
    Ok(())
}

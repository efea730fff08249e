//! A stack of truth values: the digits of operands, the lowest of each first.

ghost use Rattle.std.specs.Prelude.{◌≡◌, ℕ, ◌+◌, ◌<◌, ◌≤◌, OnOk, false, length, slice_index_or};
ghost use Rattle.eq_net.specs.inner.Stack.{Replaces, Sets, part};

use eq_base::Memory;

/// The value at a place.
pub fn bit(stack: &Vec<bool>, at: usize) -> bool
    requires { at < length stack.now.items }
    ensures { result ≡ slice_index_or stack.now.items at false }
{
    stack[at]
}

/// Writes a value.
pub fn put(stack: &mut Vec<bool>, at: usize, bit: bool)
    requires { at < length stack.old.items }
    ensures { Sets at bit stack.old.items stack.new.items }
{
    stack[at] = bit;
}

/// Drops all from a place on.
pub fn cut(stack: &mut Vec<bool>, to: usize)
    requires { to ≤ length stack.old.items }
    ensures size { length stack.new.items ≡ to }
    ensures kept { (k : ℕ) → k < to → slice_index_or stack.new.items k false ≡ slice_index_or
        stack.old.items k false }
{
    stack.truncate(to);
}

/// Moves `width` values down from a place to another, and drops all above them.
pub fn move_down(stack: &mut Vec<bool>, to: usize, from: usize, width: usize)
    requires order { to ≤ from }
    requires there { from + width ≤ length stack.old.items }
    ensures { Replaces to (part stack.old.items from) width stack.old.items stack.new.items }
{
    for j in 0..width {
        let moved = bit(stack, from + j);
        put(stack, to + j, moved);
    }
    stack.truncate(to + width);
}

/// Puts one value in the place of all from a place on.
pub fn leave_one(stack: &mut Vec<bool>, from: usize, bit: bool) -> Result<(), Memory>
    requires { from ≤ length stack.old.items }
    ensures { OnOk result (Replaces from (λ j. bit) 1 stack.old.items stack.new.items) }
{
    stack.truncate(from);
    stack.push(bit)?;
    Ok(())
}

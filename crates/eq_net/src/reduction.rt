//! One truth value of many.

ghost use Rattle.std.specs.Prelude.{◌≡◌, ◌+◌, ◌≤◌, length};
ghost use Rattle.eq_net.specs.Numbers.{all_ones, parity, some_one};
ghost use Rattle.eq_net.specs.inner.Stack.{part};

use crate::bitwise::differ;
use crate::stack::bit;

/// Whether all `count` values from a place on are 1.
pub fn are_all_ones(stack: &Vec<bool>, from: usize, count: usize) -> bool
    requires { from + count ≤ length stack.now.items }
    ensures { result ≡ all_ones count (part stack.now.items from) }
{
    let mut all = true;
    for j in 0..count {
        all = all & bit(stack, from + j);
    }
    all
}

/// Whether one of `count` values from a place on is 1: the number that they spell isn't zero.
pub fn has_one(stack: &Vec<bool>, from: usize, count: usize) -> bool
    requires { from + count ≤ length stack.now.items }
    ensures { result ≡ some_one count (part stack.now.items from) }
{
    let mut some = false;
    for j in 0..count {
        some = some | bit(stack, from + j);
    }
    some
}

/// Whether an odd number of `count` values from a place on is 1.
pub fn is_odd(stack: &Vec<bool>, from: usize, count: usize) -> bool
    requires { from + count ≤ length stack.now.items }
    ensures { result ≡ parity count (part stack.now.items from) }
{
    let mut odd = false;
    for j in 0..count {
        odd = differ(odd, bit(stack, from + j));
    }
    odd
}

//! Operations on numbers, by their digits from the lowest up.

ghost use Rattle.std.specs.Prelude.{◌≡◌, ◌+◌, ◌-◌, ◌^◌, ◌≤◌, ℕ, Bool, cond, length, min, nat_le, nat_lt, ◌&&◌};
ghost use Rattle.eq_net.specs.Numbers.{differ as differ_of, digit, number};
ghost use Rattle.eq_net.specs.inner.Stack.{Replaces, part};

use crate::bitwise::differ;
use crate::stack::{bit, cut, put};

/// Puts a sum in the place of its operands, the values from `left` up to `right` and those from there on. With `minus` the
/// right operand's digits are negated and one is added, which makes it the difference.
pub fn add(stack: &mut Vec<bool>, left: usize, right: usize, minus: bool)
    requires order { left ≤ right }
    requires sizes { right + (right - left) ≡ length stack.old.items }
    ensures { Replaces left
        (digit ((number (right - left) (part stack.old.items left) + number (right - left)
        (λ i. differ_of minus (part stack.old.items right i))) + cond {A = ℕ} minus 1 0))
        (right - left) stack.old.items stack.new.items }
{
    let mut carry = minus;
    for j in 0..right - left {
        let x = bit(stack, left + j);
        let y = differ(minus, bit(stack, right + j));
        let sum = differ(differ(x, y), carry);
        carry = (x & y) | (carry & differ(x, y));
        put(stack, left + j, sum);
    }
    cut(stack, right);
}

/// Puts the negative of a number in its place, the values from `from` on.
pub fn oppose(stack: &mut Vec<bool>, from: usize)
    requires { from ≤ length stack.old.items }
    ensures { Replaces from (digit (2 ^ (length stack.old.items - from) - number
        (length stack.old.items - from) (part stack.old.items from)))
        (length stack.old.items - from) stack.old.items stack.new.items }
{
    let mut carry = true;
    for j in 0..stack.len() - from {
        let x = !bit(stack, from + j);
        put(stack, from + j, differ(x, carry));
        carry = carry & x;
    }
}

/// Whether a number is below another, where `less` says so of what stands below their digits x and y.
fn with_digits(less: bool, x: bool, y: bool) -> bool
    ensures { result ≡ cond {A = Bool} (differ_of x y) y less }
{
    if differ(x, y) { y } else { less }
}

/// Whether the number of `count` digits from `left` on is below that from `right` on.
pub fn is_less(stack: &Vec<bool>, left: usize, right: usize, count: usize) -> bool
    requires left { left + count ≤ length stack.now.items }
    requires right { right + count ≤ length stack.now.items }
    ensures { result ≡ nat_lt (number count (part stack.now.items left))
        (number count (part stack.now.items right)) }
{
    let mut less = false;
    for j in 0..count {
        less = with_digits(less, bit(stack, left + j), bit(stack, right + j));
    }
    less
}

/// The sum, or `most` where it is more.
pub fn capped_sum(a: usize, b: usize, most: usize) -> usize
    requires { b ≤ most }
    ensures { result ≡ min most (a + b) }
{
    if a >= most - b { most } else { a + b }
}

/// The number that stands from `from` on, or `most` where it is more.
pub fn capped_number(stack: &Vec<bool>, from: usize, most: usize) -> usize
    requires { from ≤ length stack.now.items }
    ensures { result ≡ min most (number (length stack.now.items - from)
        (part stack.now.items from)) }
{
    let mut sum = 0;
    let mut weight = capped_sum(1, 0, most);
    for j in 0..stack.len() - from {
        if bit(stack, from + j) {
            sum = capped_sum(sum, weight, most);
        }
        weight = capped_sum(weight, weight, most);
    }
    sum
}

/// Moves the values from `left` up to `right` by as many places up, lets zeros come in, and drops what stands above.
pub fn shift_up(stack: &mut Vec<bool>, left: usize, right: usize, by: usize)
    requires order { left ≤ right }
    requires there { right ≤ length stack.old.items }
    ensures { Replaces left (λ j. nat_le by j && part stack.old.items left (j - by)) (right - left)
        stack.old.items stack.new.items }
{
    for i in 0..right - left {
        let j = right - left - 1 - i;
        let moved = if by <= j {
            bit(stack, left + (j - by))
        } else {
            false
        };
        put(stack, left + j, moved);
    }
    stack.truncate(right);
}

/// Moves the values from `left` up to `right` by as many places down, lets zeros come in, and drops what stands above.
pub fn shift_down(stack: &mut Vec<bool>, left: usize, right: usize, by: usize)
    requires order { left ≤ right }
    requires there { right ≤ length stack.old.items }
    ensures { Replaces left (λ j. nat_lt j (right - left - by) && part stack.old.items left
        (by + j)) (right - left) stack.old.items stack.new.items }
{
    for j in 0..right - left {
        let moved = if by < right - left - j {
            bit(stack, left + (by + j))
        } else {
            false
        };
        put(stack, left + j, moved);
    }
    stack.truncate(right);
}

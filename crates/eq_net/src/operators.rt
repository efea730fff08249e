//! The operators of words, each on the stack in the place of its operands.

ghost use Rattle.std.specs.Prelude.{◌≡◌, ◌==◌, ℕ, ◌-◌, ◌≤◌, OnOk, false, length, nat_lt};
ghost use Rattle.eq_net.specs.Numbers.{number, some_one};
ghost use Rattle.eq_net.specs.Meaning.{result_size};
ghost use Rattle.eq_net.specs.Operators.{apply, choose, extended, has_free_sizes, negative, one_bit, reduce};
ghost use Rattle.eq_net.specs.declared.types.WordOp.TheVariants.{Add, Shl, Shr, Sub};
ghost use Rattle.eq_net.specs.inner.Stack.{Replaces, part};

use crate::arithmetic::{add, capped_number, is_less, shift_down, shift_up};
use crate::bitwise::{Gate, combine};
use crate::reduction::{are_all_ones, has_one, is_odd};
use crate::stack::{leave_one, move_down};
use crate::types::{RedOp, WordOp};
use eq_base::Memory;

fn sum(stack: &mut Vec<bool>, left: usize, right: usize)
    requires order { left ≤ right }
    requires there { right ≤ length stack.old.items }
    requires sizes { right - left ≡ length stack.old.items - right }
    ensures { Replaces left (apply Add (right - left) (length stack.old.items - right)
        (part stack.old.items left) (part stack.old.items right)) (right - left) stack.old.items
        stack.new.items }
{
    add(stack, left, right, false);
}

fn difference(stack: &mut Vec<bool>, left: usize, right: usize)
    requires order { left ≤ right }
    requires there { right ≤ length stack.old.items }
    requires sizes { right - left ≡ length stack.old.items - right }
    ensures { Replaces left (apply Sub (right - left) (length stack.old.items - right)
        (part stack.old.items left) (part stack.old.items right)) (right - left) stack.old.items
        stack.new.items }
{
    add(stack, left, right, true);
}

fn left_shift(stack: &mut Vec<bool>, left: usize, right: usize)
    requires order { left ≤ right }
    requires there { right ≤ length stack.old.items }
    ensures { Replaces left (apply Shl (right - left) (length stack.old.items - right)
        (part stack.old.items left) (part stack.old.items right)) (right - left) stack.old.items
        stack.new.items }
{
    let by = capped_number(stack, right, right - left);
    shift_up(stack, left, right, by);
}

fn right_shift(stack: &mut Vec<bool>, left: usize, right: usize)
    requires order { left ≤ right }
    requires there { right ≤ length stack.old.items }
    ensures { Replaces left (apply Shr (right - left) (length stack.old.items - right)
        (part stack.old.items left) (part stack.old.items right)) (right - left) stack.old.items
        stack.new.items }
{
    let by = capped_number(stack, right, right - left);
    shift_down(stack, left, right, by);
}

/// Whether the left operand's number is below the right one's.
fn below(stack: &Vec<bool>, left: usize, right: usize) -> bool
    requires order { left ≤ right }
    requires there { right ≤ length stack.now.items }
    requires sizes { right - left ≡ length stack.now.items - right }
    ensures { result ≡ nat_lt (number (right - left) (part stack.now.items left))
        (number (length stack.now.items - right) (part stack.now.items right)) }
{
    is_less(stack, left, right, right - left)
}

/// Whether the left operand's number is above the right one's.
fn above(stack: &Vec<bool>, left: usize, right: usize) -> bool
    requires order { left ≤ right }
    requires there { right ≤ length stack.now.items }
    requires sizes { right - left ≡ length stack.now.items - right }
    ensures { result ≡ nat_lt (number (length stack.now.items - right) (part stack.now.items right))
        (number (right - left) (part stack.now.items left)) }
{
    is_less(stack, right, left, right - left)
}

/// Whether both operands are the same number.
fn equal(stack: &Vec<bool>, left: usize, right: usize) -> bool
    requires order { left ≤ right }
    requires there { right ≤ length stack.now.items }
    requires sizes { right - left ≡ length stack.now.items - right }
    ensures { result ≡ (number (right - left) (part stack.now.items left) == number
        (length stack.now.items - right) (part stack.now.items right)) }
{
    !below(stack, left, right) & !above(stack, left, right)
}

/// Whether the values up to `right`, and those from there on, have a one.
fn truths(stack: &Vec<bool>, left: usize, right: usize) -> (bool, bool)
    requires order { left ≤ right }
    requires there { right ≤ length stack.now.items }
    ensures left { result.0 ≡ some_one (right - left) (part stack.now.items left) }
    ensures right { result.1 ≡ some_one (length stack.now.items - right)
        (part stack.now.items right) }
{
    (
        has_one(stack, left, right - left),
        has_one(stack, right, stack.len() - right),
    )
}

/// Puts an operation in the place of its operands, the values from `left` up to `right` and those from there on.
pub fn operate(op: WordOp, stack: &mut Vec<bool>, left: usize, right: usize) -> Result<(), Memory>
    requires order { left ≤ right }
    requires there { right ≤ length stack.old.items }
    requires sizes { has_free_sizes op ≡ false → right - left ≡ length stack.old.items - right }
    ensures { OnOk result (Replaces left (apply op (right - left) (length stack.old.items - right)
        (part stack.old.items left) (part stack.old.items right))
        (result_size op (right - left)) stack.old.items stack.new.items) }
{
    match op {
        WordOp::And => combine(Gate::And, stack, left, right),
        WordOp::Or => combine(Gate::Or, stack, left, right),
        WordOp::Xor => combine(Gate::Xor, stack, left, right),
        WordOp::Xnor => combine(Gate::Xnor, stack, left, right),
        WordOp::Add => sum(stack, left, right),
        WordOp::Sub => difference(stack, left, right),
        WordOp::Shl => left_shift(stack, left, right),
        WordOp::Shr => right_shift(stack, left, right),
        WordOp::Eq => return leave_one(stack, left, equal(stack, left, right)),
        WordOp::Ne => return leave_one(stack, left, !equal(stack, left, right)),
        WordOp::Lt => return leave_one(stack, left, below(stack, left, right)),
        WordOp::Le => return leave_one(stack, left, !above(stack, left, right)),
        WordOp::Gt => return leave_one(stack, left, above(stack, left, right)),
        WordOp::Ge => return leave_one(stack, left, !below(stack, left, right)),
        WordOp::LogAnd => {
            let (x, y) = truths(stack, left, right);
            return leave_one(stack, left, x & y);
        }
        WordOp::LogOr => {
            let (x, y) = truths(stack, left, right);
            return leave_one(stack, left, x | y);
        }
    }
    Ok(())
}

/// The bit that the values from a place on are reduced to.
fn reduced(op: RedOp, stack: &Vec<bool>, from: usize) -> bool
    requires { from ≤ length stack.now.items }
    ensures { result ≡ reduce op (length stack.now.items - from) (part stack.now.items from) }
{
    let count = stack.len() - from;
    match op {
        RedOp::And => are_all_ones(stack, from, count),
        RedOp::Or => has_one(stack, from, count),
        RedOp::Xor => is_odd(stack, from, count),
        RedOp::Nand => !are_all_ones(stack, from, count),
        RedOp::Nor => !has_one(stack, from, count),
        RedOp::Xnor => !is_odd(stack, from, count),
        RedOp::Zero => !has_one(stack, from, count),
    }
}

/// Puts a reduction in the place of its operand, the values from `from` on.
pub fn reduce_to_one(op: RedOp, stack: &mut Vec<bool>, from: usize) -> Result<(), Memory>
    requires { from ≤ length stack.old.items }
    ensures { OnOk result (Replaces from (one_bit
        (reduce op (length stack.old.items - from) (part stack.old.items from))) 1 stack.old.items
        stack.new.items) }
{
    let bit = reduced(op, stack, from);
    leave_one(stack, from, bit)
}

/// Puts one of two operands, the values from `left` and from `right` on, in the place of all: the first where the condition,
/// the values from `from` up to `left`, isn't zero.
pub fn choose_one(stack: &mut Vec<bool>, from: usize, left: usize, right: usize)
    requires condition { from ≤ left }
    requires order { left ≤ right }
    requires there { right ≤ length stack.old.items }
    requires sizes { right - left ≡ length stack.old.items - right }
    ensures { Replaces from (choose (left - from) (part stack.old.items from)
        (part stack.old.items left) (part stack.old.items right)) (right - left) stack.old.items
        stack.new.items }
{
    if has_one(stack, from, left - from) {
        move_down(stack, from, left, right - left);
    } else {
        move_down(stack, from, right, right - left);
    }
}

/// Puts zeros above the values from `from` on, so that there are `count`.
pub fn extend(stack: &mut Vec<bool>, from: usize, count: usize) -> Result<(), Memory>
    requires there { from ≤ length stack.old.items }
    requires room { length stack.old.items - from ≤ count }
    ensures { OnOk result (Replaces from (extended (length stack.old.items - from)
        (part stack.old.items from)) count stack.old.items stack.new.items) }
{
    for _ in 0..count - (stack.len() - from) {
        stack.push(false)?;
    }
    Ok(())
}

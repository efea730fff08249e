//! Operations that compute each bit from the bits at its place.

ghost use Rattle.std.specs.Prelude.{◌≡◌, ◌+◌, ◌-◌, ◌≤◌, length, not};
ghost use Rattle.eq_net.specs.Numbers.{differ as differ_of};
ghost use Rattle.eq_net.specs.inner.Gates.{gated};
ghost use Rattle.eq_net.specs.inner.Stack.{Replaces, part};

use crate::stack::{bit, put};

/// A gate of two inputs.
#[derive(Clone, Copy, Debug, PartialEq, Eq)]
pub enum Gate {
    And,
    Or,
    Xor,
    Xnor,
}

/// Exclusive or.
pub fn differ(x: bool, y: bool) -> bool
    ensures { result ≡ differ_of x y }
{
    if x { !y } else { y }
}

fn gated_bit(kind: Gate, x: bool, y: bool) -> bool
    ensures { result ≡ gated kind x y }
{
    match kind {
        Gate::And => x & y,
        Gate::Or => x | y,
        Gate::Xor => differ(x, y),
        Gate::Xnor => !differ(x, y),
    }
}

/// Puts a gate for each place in the place of its operands, the values from `left` up to `right` and those from there on.
pub fn combine(kind: Gate, stack: &mut Vec<bool>, left: usize, right: usize)
    requires order { left ≤ right }
    requires sizes { right + (right - left) ≡ length stack.old.items }
    ensures { Replaces left (λ j. gated kind (part stack.old.items left j)
        (part stack.old.items right j)) (right - left) stack.old.items stack.new.items }
{
    for j in 0..right - left {
        let combined = gated_bit(kind, bit(stack, left + j), bit(stack, right + j));
        put(stack, left + j, combined);
    }
    stack.truncate(right);
}

/// Negates the values from a place on.
pub fn negate(stack: &mut Vec<bool>, from: usize)
    requires { from ≤ length stack.old.items }
    ensures { Replaces from (λ j. not (part stack.old.items from j)) (length stack.old.items - from)
        stack.old.items stack.new.items }
{
    for j in 0..stack.len() - from {
        let negated = !bit(stack, from + j);
        put(stack, from + j, negated);
    }
}

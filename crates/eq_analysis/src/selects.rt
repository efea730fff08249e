//! Ranges and selects, and sizes up to the most that an expression may have: a larger one counts as one more.

ghost use Rattle.std.specs.Prelude.{◌≡◌, ◌+◌, ◌*◌, ◌≤◌, not, nat_lt};
ghost use Rattle.eq_model.specs.Nets.{range_width};
ghost use Rattle.eq_verilog.specs.Scopes as scopes;
ghost use Rattle.eq_verilog.specs.Sizes as sizes;
ghost use Rattle.eq_verilog.specs.ModuleRefusals as spec;
ghost use Rattle.eq_analysis.specs.inner.Ranging.{capped};

use crate::scope::position;
use crate::sizes::{Sizing, sizing_of};
use eq_vparse::BinOp;

/// The most bits of a net.
const MOST_BITS: u32 = 1024;

/// The most bits of an expression by itself.
pub const MOST_SIZE: u32 = 65_536;

pub fn is_same_range(one: Option<(u32, u32)>, other: Option<(u32, u32)>) -> bool
    ensures { result ≡ spec.is_same_range one other }
{
    match (one, other) {
        (None, None) => true,
        (None, Some(_)) => false,
        (Some(_), None) => false,
        (Some(a), Some(b)) => a.0 == b.0 && a.1 == b.1,
    }
}

/// Whether a range has no more bits than a net may have.
pub fn has_most_bits(range: Option<(u32, u32)>) -> bool
    ensures { result ≡ not (nat_lt spec.most_bits (range_width range)) }
{
    match range {
        Some((left, right)) => left.abs_diff(right) < MOST_BITS,
        None => true,
    }
}

/// How many bits a range has.
pub fn range_size(range: Option<(u32, u32)>) -> u32
    ensures { result ≡ capped (range_width range) }
{
    match range {
        Some((left, right)) => left.abs_diff(right).min(MOST_SIZE) + 1,
        None => 1,
    }
}

fn is_inside(range: (u32, u32), index: u32) -> bool
    ensures { result ≡ scopes.is_inside range index }
{
    range.0.min(range.1) <= index && index <= range.0.max(range.1)
}

/// Whether `[left:right]` lies in a range, in its direction.
pub fn is_select(range: Option<(u32, u32)>, left: u32, right: u32) -> bool
    ensures { result ≡ scopes.is_select range left right }
{
    match range {
        Some(declared) => {
            is_inside(declared, left)
                && is_inside(declared, right)
                && position(range, right) <= position(range, left)
        }
        None => false,
    }
}

/// The size of a sum.
pub fn added(a: u32, b: u32) -> u32
    requires left { a ≤ spec.most_size + 1 }
    requires right { b ≤ spec.most_size + 1 }
    ensures { result ≡ capped (a + b) }
{
    (a + b).min(MOST_SIZE + 1)
}

/// The size of a repeat.
pub fn times(count: u32, size: u32) -> u32
    ensures { result ≡ capped (count * size) }
{
    let product = u64::from(count) * u64::from(size);
    product.min(u64::from(MOST_SIZE) + 1) as u32
}

/// The size of the result of an operator of two operands.
pub fn binary_size(op: BinOp, left: u32, right: u32) -> u32
    ensures { result ≡ sizes.binary_own (sizes.sizing op) left right }
{
    match sizing_of(op) {
        Sizing::InContext => left.max(right),
        Sizing::Shifting => left,
        Sizing::Comparing => 1,
        Sizing::Judging => 1,
    }
}

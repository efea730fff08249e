//! What operators cost, as lines in the size of their left or only operand.

ghost use Rattle.std.specs.Prelude.{◌≡◌, ◌+◌, ◌*◌, ℕ};
ghost use Rattle.eq_net.specs.Operators.{apply_cost};
ghost use Rattle.eq_verilog.specs.Sizes.{unary_form, sizing};
ghost use Rattle.eq_verilog.specs.Expressions.{word_op};
ghost use Rattle.eq_verilog.specs.Costs.{unary_cost};
ghost use Rattle.eq_cost.specs.Counts.{told};
ghost use Rattle.eq_cost.specs.inner.Lines.{IsLine};
ghost use Rattle.eq_cost.specs.inner.Operating as spec;

use crate::counting::{product, sum};
use crate::lines::Line;
use eq_vparse::{BinOp, UnOp};

/// Whether the result has one bit, and the operand its own size.
pub fn is_reduction(op: UnOp) -> bool
    ensures { result ≡ spec.is_reduction (unary_form op) }
{
    match op {
        UnOp::Not | UnOp::Neg => false,
        UnOp::LogNot
        | UnOp::RedAnd
        | UnOp::RedNand
        | UnOp::RedOr
        | UnOp::RedNor
        | UnOp::RedXor
        | UnOp::RedXnor => true,
    }
}

fn unary_slope(op: UnOp) -> u64
    ensures { result ≡ spec.unary_slope (unary_form op) }
{
    match op {
        UnOp::Not | UnOp::RedAnd | UnOp::RedNand | UnOp::RedXor | UnOp::RedXnor => 1,
        UnOp::LogNot | UnOp::RedOr | UnOp::RedNor => 4,
        UnOp::Neg => 6,
    }
}

fn unary_base(op: UnOp) -> u64
    ensures { result ≡ spec.unary_base (unary_form op) }
{
    match op {
        UnOp::Not | UnOp::Neg | UnOp::RedAnd | UnOp::RedOr | UnOp::RedXor => 0,
        UnOp::LogNot | UnOp::RedNand | UnOp::RedNor | UnOp::RedXnor => 1,
    }
}

/// An operator of one operand.
pub fn unary_line(op: UnOp) -> Line
    ensures { IsLine (unary_cost (unary_form op)) result }
{
    Line {
        slope: unary_slope(op),
        base: unary_base(op),
    }
}

/// For `&&` and `||`, whose right operand has so many bits.
fn judged_base(right: u64) -> u64
    ensures { result ≡ told (4 * right + 4) }
{
    sum(product(4, right), 4)
}

fn operator_slope(op: BinOp, right: u64) -> u64
    ensures { result ≡ spec.operator_slope op right }
{
    match op {
        BinOp::And | BinOp::Xor => 1,
        BinOp::Xnor | BinOp::Lt | BinOp::Le | BinOp::Gt | BinOp::Ge => 2,
        BinOp::Eq | BinOp::Ne => 3,
        BinOp::Or | BinOp::LogAnd | BinOp::LogOr => 4,
        BinOp::Add => 5,
        BinOp::Sub => 6,
        BinOp::Shl | BinOp::Shr => right,
    }
}

fn operator_base(op: BinOp, right: u64) -> u64
    ensures { result ≡ spec.operator_base op right }
{
    match op {
        BinOp::LogAnd | BinOp::LogOr => judged_base(right),
        BinOp::Ne | BinOp::Lt | BinOp::Le | BinOp::Gt | BinOp::Ge => 1,
        BinOp::And
        | BinOp::Or
        | BinOp::Xor
        | BinOp::Xnor
        | BinOp::Add
        | BinOp::Sub
        | BinOp::Shl
        | BinOp::Shr
        | BinOp::Eq => 0,
    }
}

/// An operator of two operands, the right one of so many bits.
pub fn operator_line(op: BinOp, right: u64) -> Line
    ensures { (m n : ℕ) → spec.AreNear (sizing op) right n →
        told (apply_cost (word_op op) m n) ≡ told (result.slope * m + result.base) }
{
    Line {
        slope: operator_slope(op, right),
        base: operator_base(op, right),
    }
}

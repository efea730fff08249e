//! How many bits an expression has by itself.

ghost use Rattle.std.specs.Prelude.{◌≡◌, ◌+◌, ◌<◌, ◌^◌, length, map};
ghost use Rattle.eq_verilog.specs.Trees.{expr_tree, join_all};
ghost use Rattle.eq_verilog.specs.Sizes as spec;
ghost use Rattle.eq_analysis.specs.Finding.{scope_of};
ghost use Rattle.eq_analysis.specs.Measuring.{IsSmall, rule_of};

use crate::scope::{span, width};
use eq_names::NameTable;
use eq_net::NetInfo;
use eq_vparse::{BinOp, Expr, UnOp};

/// In which sizes an operator takes its operands.
#[derive(Clone, Copy, Debug, PartialEq, Eq)]
pub enum Sizing {
    /// Both have the context's size.
    InContext,
    /// The left one has the context's size, the right one its own.
    Shifting,
    /// Both have the larger of their own sizes, and the result has one bit.
    Comparing,
    /// Each has its own size, and the result has one bit.
    Judging,
}

pub fn sizing_of(op: BinOp) -> Sizing
    ensures { rule_of result ≡ spec.sizing op }
{
    match op {
        BinOp::Add | BinOp::Sub | BinOp::And | BinOp::Or | BinOp::Xor | BinOp::Xnor => {
            Sizing::InContext
        }
        BinOp::Shl | BinOp::Shr => Sizing::Shifting,
        BinOp::Lt | BinOp::Le | BinOp::Gt | BinOp::Ge | BinOp::Eq | BinOp::Ne => Sizing::Comparing,
        BinOp::LogAnd | BinOp::LogOr => Sizing::Judging,
    }
}

/// The size of a result whose operand has so many bits by itself.
pub fn unary_own(op: UnOp, size: u32) -> u32
    ensures { result ≡ spec.unary_own (spec.unary_form op) size }
{
    match op {
        UnOp::Not | UnOp::Neg => size,
        UnOp::LogNot
        | UnOp::RedAnd
        | UnOp::RedNand
        | UnOp::RedOr
        | UnOp::RedNor
        | UnOp::RedXor
        | UnOp::RedXnor => 1,
    }
}

/// The size of an expression by itself.
#[cycle(sizes)]
pub fn own(expr: &Expr, nets: &[NetInfo], names: &NameTable, from: u32) -> u32
    requires room { from + length names.now < 2 ^ 32 }
    requires small { IsSmall (scope_of nets.now names.now from) (expr_tree expr.now) }
    ensures { result ≡ spec.own (scope_of nets.now names.now from) (expr_tree expr.now) }
{
    match expr {
        Expr::Const(constant) => constant.size,
        Expr::Net(name) => width(nets, names, from, name),
        Expr::Bit(_, _) => 1,
        Expr::Part(_, left, right) => span(*left, *right),
        Expr::Concat(parts) => own_of_all(parts.as_slice(), nets, names, from),
        Expr::Repeat(times, parts) => *times * own_of_all(parts.as_slice(), nets, names, from),
        Expr::Unary(op, a) => unary_own(*op, own(a.get(), nets, names, from)),
        Expr::Binary(op, a, b) => match sizing_of(*op) {
            Sizing::InContext => {
                let left = own(a.get(), nets, names, from);
                left.max(own(b.get(), nets, names, from))
            }
            Sizing::Shifting => own(a.get(), nets, names, from),
            Sizing::Comparing => 1,
            Sizing::Judging => 1,
        },
        Expr::Cond(_, a, b) => {
            let left = own(a.get(), nets, names, from);
            left.max(own(b.get(), nets, names, from))
        }
    }
}

/// The size of a concatenation.
#[cycle(sizes)]
pub fn own_of_all(parts: &[Expr], nets: &[NetInfo], names: &NameTable, from: u32) -> u32
    requires room { from + length names.now < 2 ^ 32 }
    requires small { IsSmall (scope_of nets.now names.now from) (join_all (map expr_tree parts.now)) }
    ensures { result ≡
        spec.own (scope_of nets.now names.now from) (join_all (map expr_tree parts.now)) }
{
    let mut total = 0;
    for part in parts {
        total += own(part, nets, names, from);
    }
    total
}

/// The size of the operand in a context of `size` bits.
pub fn inner_size(
    op: UnOp,
    a: &Expr,
    size: u32,
    nets: &[NetInfo],
    names: &NameTable,
    from: u32,
) -> u32
    requires room { from + length names.now < 2 ^ 32 }
    requires small { IsSmall (scope_of nets.now names.now from) (expr_tree a.now) }
    ensures { result ≡
        spec.inner_size (scope_of nets.now names.now from) op (expr_tree a.now) size }
{
    match op {
        UnOp::Not | UnOp::Neg => size,
        UnOp::LogNot
        | UnOp::RedAnd
        | UnOp::RedNand
        | UnOp::RedOr
        | UnOp::RedNor
        | UnOp::RedXor
        | UnOp::RedXnor => own(a, nets, names, from),
    }
}

/// The sizes of the operands in a context of `size` bits.
pub fn operand_sizes(
    op: BinOp,
    a: &Expr,
    b: &Expr,
    size: u32,
    nets: &[NetInfo],
    names: &NameTable,
    from: u32,
) -> (u32, u32)
    requires room { from + length names.now < 2 ^ 32 }
    requires left { IsSmall (scope_of nets.now names.now from) (expr_tree a.now) }
    requires right { IsSmall (scope_of nets.now names.now from) (expr_tree b.now) }
    ensures left { result.0 ≡ spec.left_size (scope_of nets.now names.now from) op
        (expr_tree a.now) (expr_tree b.now) size }
    ensures right { result.1 ≡ spec.right_size (scope_of nets.now names.now from) op
        (expr_tree a.now) (expr_tree b.now) size }
{
    match sizing_of(op) {
        Sizing::InContext => (size, size),
        Sizing::Shifting => (size, own(b, nets, names, from)),
        Sizing::Comparing => {
            let larger = own(a, nets, names, from).max(own(b, nets, names, from));
            (larger, larger)
        }
        Sizing::Judging => (own(a, nets, names, from), own(b, nets, names, from)),
    }
}

//! How the parts of an expression are written.

ghost use Rattle.std.specs.Prelude.{◌≡◌};
ghost use Rattle.eq_vparse.specs.Printing as spec;

use crate::tree::{BinOp, Expr, UnOp};
use eq_vlex::Mark;

/// What stands outermost in an expression.
#[derive(Clone, Copy, PartialEq, Eq)]
pub(crate) enum Form {
    Constant,
    /// A name, a bit, a part, a concatenation or a repeat.
    Primary,
    /// A unary or binary operator or `?:`.
    Operation,
}

pub fn form_of(e: &Expr) -> Form
    ensures { result ≡ (spec.shown e.now).0 }
{
    match e {
        Expr::Const(_) => Form::Constant,
        Expr::Net(_) => Form::Primary,
        Expr::Bit(_, _) => Form::Primary,
        Expr::Part(_, _, _) => Form::Primary,
        Expr::Concat(_) => Form::Primary,
        Expr::Repeat(_, _) => Form::Primary,
        Expr::Unary(_, _) => Form::Operation,
        Expr::Binary(_, _, _) => Form::Operation,
        Expr::Cond(_, _, _) => Form::Operation,
    }
}

pub fn unary_mark(op: UnOp) -> Mark
    ensures { result ≡ spec.unary_mark op }
{
    match op {
        UnOp::Not => Mark::Tilde,
        UnOp::LogNot => Mark::Exclamation,
        UnOp::Neg => Mark::Minus,
        UnOp::RedAnd => Mark::And,
        UnOp::RedNand => Mark::TildeAnd,
        UnOp::RedOr => Mark::Or,
        UnOp::RedNor => Mark::TildeOr,
        UnOp::RedXor => Mark::Xor,
        UnOp::RedXnor => Mark::TildeXor,
    }
}

pub fn binary_mark(op: BinOp) -> Mark
    ensures { result ≡ spec.binary_mark op }
{
    match op {
        BinOp::Add => Mark::Plus,
        BinOp::Sub => Mark::Minus,
        BinOp::Shl => Mark::ShiftLeft,
        BinOp::Shr => Mark::ShiftRight,
        BinOp::Lt => Mark::Less,
        BinOp::Le => Mark::LessEqual,
        BinOp::Gt => Mark::Greater,
        BinOp::Ge => Mark::GreaterEqual,
        BinOp::Eq => Mark::Equal,
        BinOp::Ne => Mark::NotEqual,
        BinOp::And => Mark::And,
        BinOp::Xor => Mark::Xor,
        BinOp::Xnor => Mark::TildeXor,
        BinOp::Or => Mark::Or,
        BinOp::LogAnd => Mark::LogicalAnd,
        BinOp::LogOr => Mark::LogicalOr,
    }
}

//! Which operators marks write, and how strongly they bind.

ghost use Rattle.std.specs.Prelude.{◌≡◌};
ghost use Rattle.eq_vparse.specs.Operators.{unary_of, binary_of, strength_of};

use crate::tree::{BinOp, UnOp};
use eq_vlex::Mark;

/// The unary operator that a mark writes.
pub(crate) fn unary(mark: Mark) -> Option<UnOp>
    ensures { result ≡ unary_of mark }
{
    match mark {
        Mark::Tilde => Some(UnOp::Not),
        Mark::Exclamation => Some(UnOp::LogNot),
        Mark::Minus => Some(UnOp::Neg),
        Mark::And => Some(UnOp::RedAnd),
        Mark::TildeAnd => Some(UnOp::RedNand),
        Mark::Or => Some(UnOp::RedOr),
        Mark::TildeOr => Some(UnOp::RedNor),
        Mark::Xor => Some(UnOp::RedXor),
        Mark::TildeXor | Mark::XorTilde => Some(UnOp::RedXnor),
        _ => None,
    }
}

/// The binary operator that a mark writes.
pub(crate) fn binary(mark: Mark) -> Option<BinOp>
    ensures { result ≡ binary_of mark }
{
    match mark {
        Mark::Plus => Some(BinOp::Add),
        Mark::Minus => Some(BinOp::Sub),
        Mark::ShiftLeft => Some(BinOp::Shl),
        Mark::ShiftRight => Some(BinOp::Shr),
        Mark::Less => Some(BinOp::Lt),
        Mark::LessEqual => Some(BinOp::Le),
        Mark::Greater => Some(BinOp::Gt),
        Mark::GreaterEqual => Some(BinOp::Ge),
        Mark::Equal | Mark::CaseEqual => Some(BinOp::Eq),
        Mark::NotEqual | Mark::CaseNotEqual => Some(BinOp::Ne),
        Mark::And => Some(BinOp::And),
        Mark::Xor => Some(BinOp::Xor),
        Mark::TildeXor | Mark::XorTilde => Some(BinOp::Xnor),
        Mark::Or => Some(BinOp::Or),
        Mark::LogicalAnd => Some(BinOp::LogAnd),
        Mark::LogicalOr => Some(BinOp::LogOr),
        _ => None,
    }
}

/// How strongly a binary operator binds, from 2 to 10.
pub(crate) fn strength(operator: BinOp) -> u8
    ensures { result ≡ strength_of operator }
{
    match operator {
        BinOp::Add | BinOp::Sub => 10,
        BinOp::Shl | BinOp::Shr => 9,
        BinOp::Lt | BinOp::Le | BinOp::Gt | BinOp::Ge => 8,
        BinOp::Eq | BinOp::Ne => 7,
        BinOp::And => 6,
        BinOp::Xor | BinOp::Xnor => 5,
        BinOp::Or => 4,
        BinOp::LogAnd => 3,
        BinOp::LogOr => 2,
    }
}

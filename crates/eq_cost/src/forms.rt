//! The size and the cost of each form of an expression, from those of its parts.

ghost use Rattle.std.specs.Prelude.{◌≡◌, ◌+◌, ◌*◌, ℕ, true, false};
ghost use Rattle.eq_net.specs.Operators.{apply_cost};
ghost use Rattle.eq_verilog.specs.Trees.{ExprTree, repeated, unary, binary, choice};
ghost use Rattle.eq_verilog.specs.Scopes.{Scope};
ghost use Rattle.eq_verilog.specs.Sizes as sizes;
ghost use Rattle.eq_verilog.specs.Sizes.{own, unary_form, sizing};
ghost use Rattle.eq_verilog.specs.Expressions.{word_op};
ghost use Rattle.eq_verilog.specs.Costs.{cost};
ghost use Rattle.eq_cost.specs.Counts.{told};
ghost use Rattle.eq_cost.specs.inner.Lines.{IsLine, IsCosted};
ghost use Rattle.eq_cost.specs.inner.Operating.{AreNear, is_reduction};

use crate::counting::{product, sum};
use crate::lines::{Line, added, at, flat};
use crate::operators::{is_reduction, operator_line, unary_line};
use eq_analysis::{Sizing, sizing_of};
use eq_vparse::{BinOp, UnOp};

/// How many bits an expression has by itself, and what it costs in each size. Sizes are counted up to the most that is
/// told, as costs are.
#[derive(Clone, Copy, Debug, PartialEq, Eq)]
pub struct Costed {
    pub size: u64,
    pub line: Line,
}

/// What costs nothing.
pub fn leaf(size: u64) -> Costed
    ensures size { result.size ≡ size }
    ensures line { IsLine (λ w. 0) result.line }
{
    Costed {
        size,
        line: flat(0),
    }
}

pub fn costed_repeat(count: u32, part: Costed) -> Costed
    ensures { (s : Scope) (a : ExprTree) → IsCosted s a part →
        IsCosted s (repeated count a) result }
{
    Costed {
        size: product(u64::from(count), part.size),
        line: flat(at(part.line, part.size)),
    }
}

/// An operator that keeps its operand's size.
fn kept(op: UnOp, part: Costed) -> Costed
    requires { is_reduction (unary_form op) ≡ false }
    ensures { (s : Scope) (a : ExprTree) → IsCosted s a part → IsCosted s (unary op a) result }
{
    Costed {
        size: part.size,
        line: added(unary_line(op), part.line),
    }
}

fn reduced(op: UnOp, part: Costed) -> Costed
    requires { is_reduction (unary_form op) ≡ true }
    ensures { (s : Scope) (a : ExprTree) → IsCosted s a part → IsCosted s (unary op a) result }
{
    let whole = added(unary_line(op), part.line);
    Costed {
        size: 1,
        line: flat(at(whole, part.size)),
    }
}

pub fn costed_unary(op: UnOp, part: Costed) -> Costed
    ensures { (s : Scope) (a : ExprTree) → IsCosted s a part → IsCosted s (unary op a) result }
{
    if is_reduction(op) {
        reduced(op, part)
    } else {
        kept(op, part)
    }
}

/// Both operands in one size.
fn side_by_side(op: BinOp, left: Costed, right: Costed) -> Line
    requires { (k n : ℕ) → AreNear (sizing op) k n }
    ensures { (s : Scope) (a b : ExprTree) → IsCosted s a left → IsCosted s b right →
        IsLine (λ w. apply_cost (word_op op) w w + (cost s a w + cost s b w)) result }
{
    let operands = added(left.line, right.line);
    added(operator_line(op, right.size), operands)
}

/// The right operand in its own size.
fn apart(op: BinOp, left: Costed, right: Costed) -> Line
    ensures { (s : Scope) (a b : ExprTree) → IsCosted s a left → IsCosted s b right →
        IsLine (λ w. apply_cost (word_op op) w (own s b)
        + (cost s a w + cost s b (own s b))) result }
{
    let operands = added(left.line, flat(at(right.line, right.size)));
    added(operator_line(op, right.size), operands)
}

fn in_context(op: BinOp, left: Costed, right: Costed) -> Costed
    requires { sizing op ≡ sizes.in_context }
    ensures { (s : Scope) (a b : ExprTree) → IsCosted s a left → IsCosted s b right →
        IsCosted s (binary op a b) result }
{
    Costed {
        size: left.size.max(right.size),
        line: side_by_side(op, left, right),
    }
}

fn shifting(op: BinOp, left: Costed, right: Costed) -> Costed
    requires { sizing op ≡ sizes.shifting }
    ensures { (s : Scope) (a b : ExprTree) → IsCosted s a left → IsCosted s b right →
        IsCosted s (binary op a b) result }
{
    Costed {
        size: left.size,
        line: apart(op, left, right),
    }
}

fn comparing(op: BinOp, left: Costed, right: Costed) -> Costed
    requires { sizing op ≡ sizes.comparing }
    ensures { (s : Scope) (a b : ExprTree) → IsCosted s a left → IsCosted s b right →
        IsCosted s (binary op a b) result }
{
    let whole = side_by_side(op, left, right);
    Costed {
        size: 1,
        line: flat(at(whole, left.size.max(right.size))),
    }
}

fn judging(op: BinOp, left: Costed, right: Costed) -> Costed
    requires { sizing op ≡ sizes.judging }
    ensures { (s : Scope) (a b : ExprTree) → IsCosted s a left → IsCosted s b right →
        IsCosted s (binary op a b) result }
{
    let whole = apart(op, left, right);
    Costed {
        size: 1,
        line: flat(at(whole, left.size)),
    }
}

pub fn costed_binary(op: BinOp, left: Costed, right: Costed) -> Costed
    ensures { (s : Scope) (a b : ExprTree) → IsCosted s a left → IsCosted s b right →
        IsCosted s (binary op a b) result }
{
    match sizing_of(op) {
        Sizing::InContext => in_context(op, left, right),
        Sizing::Shifting => shifting(op, left, right),
        Sizing::Comparing => comparing(op, left, right),
        Sizing::Judging => judging(op, left, right),
    }
}

/// A condition: a node for each bit that it chooses, four for each bit of its own, and what it costs itself.
pub fn test_line(test: Costed) -> Line
    ensures { (s : Scope) (c : ExprTree) → IsCosted s c test →
        IsLine (λ w. w + (4 * own s c + cost s c (own s c))) result }
{
    let base = sum(product(4, test.size), at(test.line, test.size));
    Line { slope: 1, base }
}

pub fn costed_choice(test: Costed, left: Costed, right: Costed) -> Costed
    ensures { (s : Scope) (c a b : ExprTree) → IsCosted s c test → IsCosted s a left →
        IsCosted s b right → IsCosted s (choice c a b) result }
{
    let operands = added(left.line, right.line);
    Costed {
        size: left.size.max(right.size),
        line: added(test_line(test), operands),
    }
}

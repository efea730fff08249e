//! What waits for an operand while an expression is read.

ghost use Rattle.std.specs.Prelude.{◌≡◌, [], ◌∷◌, IfOk, OnOk, MatchOption};
ghost use Rattle.eq_vparse.specs.declared.tree.Expr.TheViews.{Binary, Cond};
ghost use Rattle.eq_vparse.specs.Pendings.{binding as binding_lem, applied as applied_lem, reduce as reduce_lem};

use crate::operator::strength;
use crate::tree::{BinOp, Expr, Exprs, UnOp};
use eq_base::{Boxed, Items, Memory};
use std::alloc::Global;
use std::marker::Model;

/// What waits for an operand to its right.
#[derive(Drop)]
pub(crate) enum Pending {
    /// `(`
    Group,
    Operator(UnOp),
    /// A binary operator with its left operand.
    Left(BinOp, Expr),
    /// `c ?`
    Choice(Expr),
    /// `c ? a :`
    Otherwise(Expr, Expr),
    /// `{` with the parts so far.
    Parts(Exprs),
    /// `{n{` with the parts so far.
    Repeated(u32, Exprs),
}

/// All that waits. Contracts see the latest first.
#[derive(Drop)]
pub(crate) struct Stack {
    items: Items<Pending>,
}

impl Model for Stack {
    ghost use Rattle.std.specs.Prelude.{List, reverse};
    ghost use Rattle.std.specs.Coded.{codes};
    ghost use Rattle.eq_vparse.specs.declared.pending.Pending.{Pending};
    ghost use Rattle.eq_vparse.specs.contracts.tree.Expr as expr;

    ghost Value = { List Pending };

    ghost coded = { Prim.hlevel (codes, expr.the_row.coded) };

    ghost view = { λ s. reverse s.items };
}

impl Stack {
    pub fn new(alloc: Global) -> Stack
        ensures { result ≡ [] }
    {
        Stack {
            items: Items::new(alloc),
        }
    }

    pub fn push(&mut self, pending: Pending) -> Result<(), Memory>
        ensures { OnOk result (self.new ≡ pending ∷ self.old) }
    {
        self.items.push(pending)
    }

    pub fn pop(&mut self) -> Option<Pending>
        ensures { MatchOption result ((self.old ≡ []) × (self.new ≡ [])) (λ top. self.old ≡ top ∷ self.new) }
    {
        self.items.pop()
    }
}

/// How strongly it binds the operand that it waits for.
fn binding(pending: &Pending) -> u8
    ensures { result ≡ binding_lem pending.now }
{
    match pending {
        Pending::Operator(_) => 11,
        Pending::Left(operator, _) => strength(*operator),
        Pending::Otherwise(_, _) => 1,
        Pending::Group | Pending::Choice(_) | Pending::Parts(_) | Pending::Repeated(_, _) => 0,
    }
}

fn binary(alloc: Global, operator: BinOp, left: Expr, right: Expr) -> Result<Expr, Memory>
    ensures { IfOk result (λ e. e ≡ Binary operator left right) }
{
    let left = Boxed::new(alloc, left)?;
    Ok(Expr::Binary(operator, left, Boxed::new(alloc, right)?))
}

fn choice(alloc: Global, condition: Expr, chosen: Expr, other: Expr) -> Result<Expr, Memory>
    ensures { IfOk result (λ e. e ≡ Cond condition chosen other) }
{
    let condition = Boxed::new(alloc, condition)?;
    let chosen = Boxed::new(alloc, chosen)?;
    Ok(Expr::Cond(condition, chosen, Boxed::new(alloc, other)?))
}

/// The expression that it makes of its operand.
fn applied(alloc: Global, pending: Pending, operand: Expr) -> Result<Expr, Memory>
    ensures { IfOk result (λ e. e ≡ applied_lem pending operand) }
{
    match pending {
        Pending::Operator(operator) => Ok(Expr::Unary(operator, Boxed::new(alloc, operand)?)),
        Pending::Left(operator, left) => binary(alloc, operator, left, operand),
        Pending::Otherwise(condition, chosen) => choice(alloc, condition, chosen, operand),
        Pending::Group => Ok(operand),
        Pending::Choice(_condition) => Ok(operand),
        Pending::Parts(_parts) => Ok(operand),
        Pending::Repeated(_times, _parts) => Ok(operand),
    }
}

/// All that binds at least so strongly takes the operand.
pub(crate) fn reduce(
    alloc: Global,
    level: u8,
    operand: Expr,
    stack: &mut Stack,
) -> Result<Expr, Memory>
    ensures { IfOk result (λ e. (e, stack.new) ≡ reduce_lem level operand stack.old) }
{
    let mut operand = operand;
    while let Some(top) = stack.pop() {
        if binding(&top) < level {
            stack.push(top)?;
            return Ok(operand);
        }
        operand = applied(alloc, top, operand)?;
    }
    Ok(operand)
}

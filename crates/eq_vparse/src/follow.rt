//! What stands behind an operand.

ghost use Rattle.std.specs.Prelude.{[], ◌∷◌, ◌++◌};
ghost use Rattle.eq_vparse.specs.Operators.{binary_of};
ghost use Rattle.eq_vparse.specs.Reading.{Reads};
ghost use Rattle.eq_vparse.specs.Machine as spec;

use crate::cursor::Cursor;
use crate::machine::{State, Step, Waiting, wait, waits};
use crate::operator::{binary, strength};
use crate::pending::{Pending, reduce};
use crate::stop::Stop;
use crate::tree::{Expr, Exprs};
use eq_vlex::{Mark, TokenKind};
use std::alloc::Global;

/// Takes the `)` of an open parenthesis.
#[tactic(auto, unfolding(crate::specs::Machine::group_at))]
fn group(cursor: &mut Cursor<'_>, expr: Expr, waiting: Waiting) -> Result<Step, Stop>
    ensures { Reads result cursor.new (spec.group_at expr waiting cursor.old) }
{
    match cursor.peek() {
        Some(TokenKind::Mark(Mark::RightParen)) => {
            cursor.advance();
            Ok(Step::More(State::Found(expr, waiting)))
        }
        _ => Err(cursor.wrong()),
    }
}

/// Takes the `:` of a choice.
#[tactic(auto, unfolding(crate::specs::Machine::otherwise_at))]
fn otherwise(
    cursor: &mut Cursor<'_>,
    condition: Expr,
    expr: Expr,
    waiting: Waiting,
) -> Result<Step, Stop>
    ensures { Reads result cursor.new (spec.otherwise_at condition expr waiting cursor.old) }
{
    match cursor.peek() {
        Some(TokenKind::Mark(Mark::Colon)) => {
            cursor.advance();
            Ok(waits(Pending::Otherwise(condition, expr), waiting)?)
        }
        _ => Err(cursor.wrong()),
    }
}

/// Takes what stands behind a part of a concatenation.
#[tactic(auto, unfolding(crate::specs::Machine::parts_at))]
fn after_part(cursor: &mut Cursor<'_>, parts: Exprs, mut waiting: Waiting) -> Result<Step, Stop>
    ensures { Reads result cursor.new (spec.parts_at parts waiting cursor.old) }
{
    match cursor.peek() {
        Some(TokenKind::Mark(Mark::Comma)) => {
            cursor.advance();
            waiting.stack.push(Pending::Parts(parts))?;
            Ok(Step::More(State::Wanted(waiting)))
        }
        Some(TokenKind::Mark(Mark::RightBrace)) => {
            cursor.advance();
            Ok(Step::More(State::Found(Expr::Concat(parts), waiting)))
        }
        _ => Err(cursor.wrong()),
    }
}

/// Takes the second brace of a repetition's end.
#[tactic(auto, unfolding(crate::specs::Machine::repeated_end))]
fn repeated_end(
    cursor: &mut Cursor<'_>,
    times: u32,
    parts: Exprs,
    waiting: Waiting,
) -> Result<Step, Stop>
    ensures { Reads result cursor.new (spec.repeated_end times parts waiting cursor.old) }
{
    match cursor.peek() {
        Some(TokenKind::Mark(Mark::RightBrace)) => {
            cursor.advance();
            Ok(Step::More(State::Found(Expr::Repeat(times, parts), waiting)))
        }
        _ => Err(cursor.wrong()),
    }
}

/// Takes what stands behind a part of a repetition.
#[tactic(auto, unfolding(crate::specs::Machine::repeated_at))]
fn after_repeated(
    cursor: &mut Cursor<'_>,
    times: u32,
    parts: Exprs,
    mut waiting: Waiting,
) -> Result<Step, Stop>
    ensures { Reads result cursor.new (spec.repeated_at times parts waiting cursor.old) }
{
    match cursor.peek() {
        Some(TokenKind::Mark(Mark::Comma)) => {
            cursor.advance();
            waiting.stack.push(Pending::Repeated(times, parts))?;
            Ok(Step::More(State::Wanted(waiting)))
        }
        Some(TokenKind::Mark(Mark::RightBrace)) => {
            cursor.advance();
            repeated_end(cursor, times, parts, waiting)
        }
        _ => Err(cursor.wrong()),
    }
}

/// Takes what stands behind a concatenation's last part.
#[tactic(auto)]
fn with_part(
    cursor: &mut Cursor<'_>,
    mut parts: Exprs,
    expr: Expr,
    waiting: Waiting,
) -> Result<Step, Stop>
    ensures { Reads result cursor.new (spec.parts_at (parts ++ expr ∷ []) waiting cursor.old) }
{
    parts.push(expr)?;
    after_part(cursor, parts, waiting)
}

/// Takes what stands behind a repetition's last part.
#[tactic(auto)]
fn with_repeated(
    cursor: &mut Cursor<'_>,
    times: u32,
    mut parts: Exprs,
    expr: Expr,
    waiting: Waiting,
) -> Result<Step, Stop>
    ensures { Reads result cursor.new (spec.repeated_at times (parts ++ expr ∷ []) waiting cursor.old) }
{
    parts.push(expr)?;
    after_repeated(cursor, times, parts, waiting)
}

/// Closes what stands on the stack, or ends the expression where nothing is open.
#[tactic(auto, unfolding(crate::specs::Machine::close_at))]
fn close(cursor: &mut Cursor<'_>, expr: Expr, mut waiting: Waiting) -> Result<Step, Stop>
    ensures { Reads result cursor.new (spec.close_at expr waiting.room waiting.stack cursor.old) }
{
    match waiting.stack.pop() {
        None => Ok(Step::Whole(expr)),
        Some(Pending::Group) => group(cursor, expr, waiting),
        Some(Pending::Choice(condition)) => otherwise(cursor, condition, expr, waiting),
        Some(Pending::Parts(parts)) => with_part(cursor, parts, expr, waiting),
        Some(Pending::Repeated(times, parts)) => with_repeated(cursor, times, parts, expr, waiting),
        Some(Pending::Operator(_operator)) => Err(cursor.wrong()),
        Some(Pending::Left(_operator, _left)) => Err(cursor.wrong()),
        Some(Pending::Otherwise(_condition, _chosen)) => Err(cursor.wrong()),
    }
}

/// Takes a token that is no operator and no `?`.
#[tactic(auto, unfolding(crate::specs::Machine::settle_at))]
fn settle(
    cursor: &mut Cursor<'_>,
    alloc: Global,
    operand: Expr,
    mut waiting: Waiting,
) -> Result<Step, Stop>
    ensures { Reads result cursor.new (spec.settle_at operand waiting cursor.old) }
{
    let expr = reduce(alloc, 1, operand, &mut waiting.stack)?;
    close(cursor, expr, waiting)
}

/// Takes a `?`.
#[tactic(auto, unfolding(crate::specs::Machine::choose_at))]
fn choose(
    cursor: &mut Cursor<'_>,
    alloc: Global,
    operand: Expr,
    mut waiting: Waiting,
) -> Result<Step, Stop>
    ensures { Reads result cursor.new (spec.choose_at operand waiting cursor.old) }
{
    let condition = reduce(alloc, 2, operand, &mut waiting.stack)?;
    wait(cursor, Pending::Choice(condition), waiting)
}

/// Takes a binary operator.
#[tactic(auto, unfolding(crate::specs::Machine::operate_at))]
fn operate(
    cursor: &mut Cursor<'_>,
    alloc: Global,
    mark: Mark,
    operand: Expr,
    mut waiting: Waiting,
) -> Result<Step, Stop>
    ensures { Reads result cursor.new (spec.operate_at (binary_of mark) operand waiting cursor.old) }
{
    match binary(mark) {
        Some(operator) => {
            let left = reduce(alloc, strength(operator), operand, &mut waiting.stack)?;
            wait(cursor, Pending::Left(operator, left), waiting)
        }
        None => settle(cursor, alloc, operand, waiting),
    }
}

/// Takes what stands behind an operand.
#[tactic(auto, unfolding(crate::specs::Machine::follow_at))]
pub(crate) fn follow(
    cursor: &mut Cursor<'_>,
    alloc: Global,
    operand: Expr,
    waiting: Waiting,
) -> Result<Step, Stop>
    ensures { Reads result cursor.new (spec.follow_at operand waiting cursor.old) }
{
    match cursor.peek() {
        Some(TokenKind::Mark(Mark::Question)) => choose(cursor, alloc, operand, waiting),
        Some(TokenKind::Mark(mark)) => operate(cursor, alloc, *mark, operand, waiting),
        _ => settle(cursor, alloc, operand, waiting),
    }
}

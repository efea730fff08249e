//! Operands, and what stands before one.

ghost use Rattle.eq_vparse.specs.Operators.{unary_of};
ghost use Rattle.eq_vparse.specs.Reading.{Reads};
ghost use Rattle.eq_vparse.specs.Machine as spec;

use crate::cursor::Cursor;
use crate::machine::{State, Step, Waiting, counted, wait};
use crate::operator::unary;
use crate::pending::Pending;
use crate::stop::Stop;
use crate::tree::Expr;
use eq_base::Items;
use eq_names::Name;
use eq_vlex::{Mark, TokenKind};
use std::alloc::Global;

/// Takes the second number of a range and its bracket.
#[tactic(auto, unfolding(crate::specs::Machine::range_at))]
fn range(cursor: &mut Cursor<'_>, name: Name, left: u32) -> Result<Expr, Stop>
    ensures { Reads result cursor.new (spec.range_at name left cursor.old) }
{
    let right = cursor.decimal()?;
    match cursor.peek() {
        Some(TokenKind::Mark(Mark::RightBracket)) => {
            cursor.advance();
            Ok(Expr::Part(name, left, right))
        }
        _ => Err(cursor.wrong()),
    }
}

/// Takes what stands behind `name[`.
#[tactic(auto, unfolding(crate::specs::Machine::select_at))]
fn select(cursor: &mut Cursor<'_>, name: Name) -> Result<Expr, Stop>
    ensures { Reads result cursor.new (spec.select_at name cursor.old) }
{
    let index = cursor.decimal()?;
    match cursor.peek() {
        Some(TokenKind::Mark(Mark::RightBracket)) => {
            cursor.advance();
            Ok(Expr::Bit(name, index))
        }
        Some(TokenKind::Mark(Mark::Colon)) => {
            cursor.advance();
            range(cursor, name, index)
        }
        _ => Err(cursor.wrong()),
    }
}

/// Takes what belongs to a name.
#[tactic(auto, unfolding(crate::specs::Machine::selected_at))]
fn selected(cursor: &mut Cursor<'_>, name: Name) -> Result<Expr, Stop>
    ensures { Reads result cursor.new (spec.selected_at name cursor.old) }
{
    match cursor.peek() {
        Some(TokenKind::Mark(Mark::LeftBracket)) => {
            cursor.advance();
            select(cursor, name)
        }
        _ => Ok(Expr::Net(name)),
    }
}

/// Takes the second brace of `{n{`.
#[tactic(auto, unfolding(crate::specs::Machine::repeat_at))]
fn repeat(
    cursor: &mut Cursor<'_>,
    alloc: Global,
    times: u32,
    waiting: Waiting,
) -> Result<Step, Stop>
    ensures { Reads result cursor.new (spec.repeat_at times waiting cursor.old) }
{
    match cursor.peek() {
        Some(TokenKind::Mark(Mark::LeftBrace)) => {
            wait(cursor, Pending::Repeated(times, Items::new(alloc)), waiting)
        }
        _ => Err(cursor.wrong()),
    }
}

/// Takes what stands behind a `{`.
#[tactic(auto, unfolding(crate::specs::Machine::brace_at))]
fn brace(cursor: &mut Cursor<'_>, alloc: Global, mut waiting: Waiting) -> Result<Step, Stop>
    ensures { Reads result cursor.new (spec.brace_at waiting cursor.old) }
{
    match cursor.peek() {
        Some(TokenKind::Decimal(times)) => {
            cursor.advance();
            repeat(cursor, alloc, *times, waiting)
        }
        _ => {
            waiting.stack.push(Pending::Parts(Items::new(alloc)))?;
            Ok(Step::More(State::Wanted(waiting)))
        }
    }
}

/// Takes a mark with which an operand begins.
#[tactic(auto, unfolding(crate::specs::Machine::begin_mark))]
fn begin_mark(
    cursor: &mut Cursor<'_>,
    alloc: Global,
    mark: Mark,
    waiting: Waiting,
) -> Result<Step, Stop>
    ensures { Reads result cursor.new (spec.begin_mark mark waiting cursor.old) }
{
    match mark {
        Mark::LeftParen => wait(cursor, Pending::Group, waiting),
        Mark::LeftBrace => {
            let Waiting { room, stack } = waiting;
            let room = counted(cursor, room)?;
            brace(cursor, alloc, Waiting { room, stack })
        }
        _ => begin_unary(cursor, mark, waiting),
    }
}

/// Takes a unary operator.
#[tactic(auto, unfolding(crate::specs::Machine::begin_unary))]
fn begin_unary(cursor: &mut Cursor<'_>, mark: Mark, waiting: Waiting) -> Result<Step, Stop>
    ensures { Reads result cursor.new (spec.begin_unary (unary_of mark) waiting cursor.old) }
{
    match unary(mark) {
        Some(operator) => wait(cursor, Pending::Operator(operator), waiting),
        None => Err(cursor.wrong()),
    }
}

/// Takes an operand, or what stands before one.
#[tactic(auto, unfolding(crate::specs::Machine::begin_at))]
pub(crate) fn begin(cursor: &mut Cursor<'_>, alloc: Global, waiting: Waiting) -> Result<Step, Stop>
    ensures { Reads result cursor.new (spec.begin_at waiting cursor.old) }
{
    match cursor.peek() {
        Some(TokenKind::Word(name)) => {
            let name = name.copy(alloc)?;
            cursor.advance();
            let operand = selected(cursor, name)?;
            Ok(Step::More(State::Found(operand, waiting)))
        }
        Some(TokenKind::Sized(constant)) => {
            cursor.advance();
            Ok(Step::More(State::Found(Expr::Const(*constant), waiting)))
        }
        Some(TokenKind::Mark(mark)) => begin_mark(cursor, alloc, *mark, waiting),
        _ => Err(cursor.wrong()),
    }
}

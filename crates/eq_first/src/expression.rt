//! Expressions, read token by token with a stack of what waits for an operand.

ghost use Rattle.std.specs.Prelude.{◌≡◌, ◌≤◌, ◌∷◌, [], ◌++◌, reverse, option_map, IfOk, IfSome};
ghost use Rattle.eq_first.specs.Phrases.{strength_of, join as join_lem};
ghost use Rattle.eq_first.specs.Machine.{binding as binding_lem, applied as applied_lem, reduce as reduce_lem, begin_at, operate as operate_lem, close as close_lem, follow_at, step as step_lem, finish as finish_lem, run, wanted};
ghost use Rattle.eq_first.specs.Lexing.{token_of, tokens_in};
ghost use Rattle.eq_first.specs.Header.{Knows};
ghost use Rattle.eq_first.specs.Machines.{state_of};

use crate::header::{Header, input};
use crate::module::Expr;
use crate::token::{Lexeme, Mark, Operator};
use eq_base::{Boxed, Items, Memory};
use std::alloc::Global;

/// What waits for an operand to its right.
#[derive(Drop)]
pub enum Pending {
    Open,
    Not,
    Left(Operator, Expr),
}

/// What waits, the latest last.
pub type Stack = Items<Pending>;

/// What was read last: an operand, or what wants one.
#[derive(Drop)]
pub enum State {
    Wanted(Stack),
    Found(Expr, Stack),
}

fn strength(operator: Operator) -> u8
    ensures { result ≡ strength_of operator }
{
    match operator {
        Operator::And => 3,
        Operator::Xor => 2,
        Operator::Or => 1,
    }
}

fn binding(pending: &Pending) -> u8
    ensures { result ≡ binding_lem pending.now }
{
    match pending {
        Pending::Open => 0,
        Pending::Not => 4,
        Pending::Left(operator, _) => strength(*operator),
    }
}

fn join(alloc: Global, operator: Operator, a: Expr, b: Expr) -> Result<Expr, Memory>
    ensures { IfOk result (λ e. e ≡ join_lem operator a b) }
{
    let a = Boxed::new(alloc, a)?;
    let b = Boxed::new(alloc, b)?;
    Ok(match operator {
        Operator::And => Expr::And(a, b),
        Operator::Xor => Expr::Xor(a, b),
        Operator::Or => Expr::Or(a, b),
    })
}

fn applied(alloc: Global, pending: Pending, operand: Expr) -> Result<Expr, Memory>
    ensures { IfOk result (λ e. e ≡ applied_lem pending operand) }
{
    match pending {
        Pending::Open => Ok(operand),
        Pending::Not => Ok(Expr::Not(Boxed::new(alloc, operand)?)),
        Pending::Left(operator, a) => join(alloc, operator, a, operand),
    }
}

/// All that binds at least so strongly takes the operand.
fn reduce(alloc: Global, level: u8, operand: Expr, stack: &mut Stack) -> Result<Expr, Memory>
    ensures { IfOk result (λ e. (e, reverse stack.new) ≡ reduce_lem level operand (reverse stack.old)) }
{
    let mut operand = operand;
    while let Some(top) = stack.pop() {
        if binding(&top) < level {
            stack.push(top)?;
            return Ok(operand);
        }
        operand = applied(alloc, top, operand)?;
    }
    Ok(operand)
}

/// Reads an operand, or what stands before one.
#[tactic(auto, unfolding(crate::specs::Machine::begin_at))]
fn begin(header: &Header<'_>, mut stack: Stack, token: Lexeme<'_>) -> Result<Option<State>, Memory>
    requires { Knows header.now.places header.now.ports }
    ensures { IfOk result (λ o. option_map state_of o ≡ begin_at header.now.ports (reverse stack) (token_of token.entry)) }
{
    match token {
        Lexeme::Word(name) => Ok(match input(&header.ports, &header.places, name) {
            Some(at) => Some(State::Found(Expr::Port(at), stack)),
            None => None,
        }),
        Lexeme::Mark(Mark::Not) => {
            stack.push(Pending::Not)?;
            Ok(Some(State::Wanted(stack)))
        }
        Lexeme::Mark(Mark::Open) => {
            stack.push(Pending::Open)?;
            Ok(Some(State::Wanted(stack)))
        }
        Lexeme::Mark(_) => Ok(None),
    }
}

/// Reads an operator behind an operand.
#[tactic(auto, unfolding(crate::specs::Machine::operate))]
fn operate(
    alloc: Global,
    operator: Operator,
    operand: Expr,
    mut stack: Stack,
) -> Result<State, Memory>
    ensures { IfOk result (λ s. state_of s ≡ operate_lem operator operand (reverse stack)) }
{
    let left = reduce(alloc, strength(operator), operand, &mut stack)?;
    stack.push(Pending::Left(operator, left))?;
    Ok(State::Wanted(stack))
}

/// Reads a closing parenthesis behind an operand.
#[tactic(auto, unfolding(crate::specs::Machine::close))]
fn close(alloc: Global, operand: Expr, mut stack: Stack) -> Result<Option<State>, Memory>
    ensures { IfOk result (λ o. option_map state_of o ≡ close_lem operand (reverse stack)) }
{
    let inner = reduce(alloc, 1, operand, &mut stack)?;
    match stack.pop() {
        Some(Pending::Open) => Ok(Some(State::Found(inner, stack))),
        _ => Ok(None),
    }
}

/// Reads what stands behind an operand.
#[tactic(auto, unfolding(crate::specs::Machine::follow_at))]
fn follow(
    alloc: Global,
    operand: Expr,
    stack: Stack,
    token: Lexeme<'_>,
) -> Result<Option<State>, Memory>
    ensures { IfOk result (λ o. option_map state_of o ≡ follow_at operand (reverse stack) (token_of token.entry)) }
{
    match token {
        Lexeme::Mark(Mark::And) => Ok(Some(operate(alloc, Operator::And, operand, stack)?)),
        Lexeme::Mark(Mark::Xor) => Ok(Some(operate(alloc, Operator::Xor, operand, stack)?)),
        Lexeme::Mark(Mark::Or) => Ok(Some(operate(alloc, Operator::Or, operand, stack)?)),
        Lexeme::Mark(Mark::Close) => close(alloc, operand, stack),
        _ => Ok(None),
    }
}

#[tactic(auto, unfolding(crate::specs::Machine::step))]
fn step(
    alloc: Global,
    header: &Header<'_>,
    state: State,
    token: Lexeme<'_>,
) -> Result<Option<State>, Memory>
    requires { Knows header.now.places header.now.ports }
    ensures { IfOk result (λ o. option_map state_of o ≡ step_lem header.now.ports (state_of state) (token_of token.entry)) }
{
    match state {
        State::Wanted(stack) => begin(header, stack, token),
        State::Found(operand, stack) => follow(alloc, operand, stack, token),
    }
}

/// The whole expression, where the state is that behind it.
#[tactic(auto, unfolding(crate::specs::Machine::finish))]
fn finish(alloc: Global, state: State) -> Result<Option<Expr>, Memory>
    ensures { IfOk result (λ o. o ≡ finish_lem (state_of state)) }
{
    match state {
        State::Wanted(_) => Ok(None),
        State::Found(operand, mut stack) => {
            let expr = reduce(alloc, 1, operand, &mut stack)?;
            Ok(if stack.is_empty() { Some(expr) } else { None })
        }
    }
}

/// The expression that the tokens are, over the inputs of the header.
pub(crate) fn expression(
    alloc: Global,
    header: &Header<'_>,
    tokens: &[Lexeme<'_>],
) -> Result<Option<Expr>, Memory>
    requires { Knows header.now.places header.now.ports }
    ensures { IfOk result (λ o. o ≡ run header.now.ports (wanted []) (tokens_in tokens.now)) }
{
    let mut state = State::Wanted(Items::new(alloc));
    for token in tokens {
        let Some(next) = step(alloc, header, state, *token)? else {
            return Ok(None);
        };
        state = next;
    }
    finish(alloc, state)
}

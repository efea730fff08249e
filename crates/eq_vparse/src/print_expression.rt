//! Writes expressions.

ghost use Rattle.std.specs.Prelude.{◌≡◌, ◌∷◌, OnOk};
ghost use Rattle.eq_vparse.specs.Phrases.{index_tokens, range_tokens};
ghost use Rattle.eq_vlex.specs.declared.token.TokenKind.TheVariants as kind;
ghost use Rattle.eq_vparse.specs.Printing.{braced, parenthesized, comma_at, exprs_tokens, expr_tokens, operand_tokens, condition_tokens};
ghost use Rattle.eq_vparse.specs.Text.{put_all};

use crate::shape::{Form, binary_mark, form_of, unary_mark};
use crate::text::Text;
use crate::tree::Expr;
use eq_base::Memory;
use eq_vlex::Mark;

pub fn index(out: &mut Text, place: u32) -> Result<(), Memory>
    ensures { OnOk result (out.new ≡ put_all out.old (index_tokens place)) }
{
    out.mark(Mark::LeftBracket)?;
    out.decimal(place)?;
    out.mark(Mark::RightBracket)
}

pub fn range(out: &mut Text, left: u32, right: u32) -> Result<(), Memory>
    ensures { OnOk result (out.new ≡ put_all out.old (range_tokens left right)) }
{
    out.mark(Mark::LeftBracket)?;
    out.decimal(left)?;
    out.mark(Mark::Colon)?;
    out.decimal(right)?;
    out.mark(Mark::RightBracket)
}

/// Writes a comma before each element of a list but the first.
pub fn comma(out: &mut Text, at: usize) -> Result<(), Memory>
    ensures { OnOk result (out.new ≡ put_all out.old (comma_at at)) }
{
    if at > 0 {
        out.mark(Mark::Comma)?;
    }
    Ok(())
}

/// Writes an expression.
#[cycle(expressions)]
#[tactic(auto, using(crate::proofs::Printed::shown_concat, crate::proofs::Printed::shown_repeat, crate::proofs::Printed::put_binary, crate::proofs::Printed::put_cond))]
pub fn expr(out: &mut Text, e: &Expr) -> Result<(), Memory>
    ensures { OnOk result (out.new ≡ put_all out.old (expr_tokens e.now)) }
{
    match e {
        Expr::Const(constant) => out.constant(*constant),
        Expr::Net(name) => out.name(name),
        Expr::Bit(name, place) => {
            out.name(name)?;
            index(out, *place)
        }
        Expr::Part(name, left, right) => {
            out.name(name)?;
            range(out, *left, *right)
        }
        Expr::Concat(parts) => concat(out, parts.as_slice()),
        Expr::Repeat(times, parts) => repeat(out, *times, parts.as_slice()),
        Expr::Unary(op, a) => {
            out.mark(unary_mark(*op))?;
            operand(out, a.get())
        }
        Expr::Binary(op, a, b) => {
            operand(out, a.get())?;
            out.mark(binary_mark(*op))?;
            operand(out, b.get())
        }
        Expr::Cond(c, a, b) => {
            condition(out, c.get())?;
            out.mark(Mark::Question)?;
            operand(out, a.get())?;
            out.mark(Mark::Colon)?;
            operand(out, b.get())
        }
    }
}

/// Writes `{n{a, b}}`.
#[cycle(expressions)]
#[tactic(auto, using(crate::proofs::Texts::put_append))]
fn repeat(out: &mut Text, times: u32, parts: &[Expr]) -> Result<(), Memory>
    ensures { OnOk result (out.new ≡ put_all out.old (braced (kind.Decimal times ∷ braced (exprs_tokens parts.now)))) }
{
    out.mark(Mark::LeftBrace)?;
    out.decimal(times)?;
    concat(out, parts)?;
    out.mark(Mark::RightBrace)
}

/// Writes an expression in parentheses.
#[cycle(expressions)]
#[tactic(auto, using(crate::proofs::Texts::put_append))]
pub fn grouped(out: &mut Text, e: &Expr) -> Result<(), Memory>
    ensures { OnOk result (out.new ≡ put_all out.old (parenthesized (expr_tokens e.now))) }
{
    out.mark(Mark::LeftParen)?;
    expr(out, e)?;
    out.mark(Mark::RightParen)
}

#[cycle(expressions)]
fn operand(out: &mut Text, e: &Expr) -> Result<(), Memory>
    ensures { OnOk result (out.new ≡ put_all out.old (operand_tokens e.now)) }
{
    match form_of(e) {
        Form::Operation => grouped(out, e),
        Form::Constant => expr(out, e),
        Form::Primary => expr(out, e),
    }
}

/// Writes the condition of `?:`.
#[cycle(expressions)]
fn condition(out: &mut Text, e: &Expr) -> Result<(), Memory>
    ensures { OnOk result (out.new ≡ put_all out.old (condition_tokens e.now)) }
{
    match form_of(e) {
        Form::Primary => expr(out, e),
        Form::Constant => grouped(out, e),
        Form::Operation => grouped(out, e),
    }
}

/// Writes a concatenation.
#[cycle(expressions)]
#[tactic(auto, using(crate::proofs::Texts::put_append))]
fn concat(out: &mut Text, parts: &[Expr]) -> Result<(), Memory>
    ensures { OnOk result (out.new ≡ put_all out.old (braced (exprs_tokens parts.now))) }
{
    out.mark(Mark::LeftBrace)?;
    exprs(out, parts)?;
    out.mark(Mark::RightBrace)
}

/// Writes expressions with commas between them.
#[cycle(expressions)]
pub fn exprs(out: &mut Text, parts: &[Expr]) -> Result<(), Memory>
    ensures { OnOk result (out.new ≡ put_all out.old (exprs_tokens parts.now)) }
{
    for at in 0..parts.len() {
        comma(out, at)?;
        expr(out, &parts[at])?;
    }
    Ok(())
}

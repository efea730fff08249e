//! Writes statements.

ghost use Rattle.std.specs.Prelude.{◌≡◌, OnOk};
ghost use Rattle.eq_vparse.specs.Printing.{set_tokens, if_tokens, block_tokens, stmt_tokens, stmts_tokens};
ghost use Rattle.eq_vparse.specs.Text.{put_all};

use crate::print_expression::{expr, grouped};
use crate::print_target::target;
use crate::text::Text;
use crate::tree::{Expr, Stmt, Target};
use eq_base::Memory;
use eq_vlex::{Key, Mark};

/// Writes `target <= expr;`.
#[tactic(auto, using(crate::proofs::Texts::put_append))]
fn set(out: &mut Text, t: &Target, e: &Expr) -> Result<(), Memory>
    ensures { OnOk result (out.new ≡ put_all out.old (set_tokens t.now e.now)) }
{
    target(out, t)?;
    out.mark(Mark::LessEqual)?;
    expr(out, e)?;
    out.mark(Mark::Semicolon)
}

/// Writes `if (c)`.
fn condition(out: &mut Text, c: &Expr) -> Result<(), Memory>
    ensures { OnOk result (out.new ≡ put_all out.old (if_tokens c.now)) }
{
    out.key(Key::If)?;
    grouped(out, c)
}

/// Writes a statement.
#[cycle(statements)]
#[tactic(auto, using(crate::proofs::Printed::stmt_block, crate::proofs::Printed::put_if, crate::proofs::Printed::put_if_else))]
pub fn stmt(out: &mut Text, s: &Stmt) -> Result<(), Memory>
    ensures { OnOk result (out.new ≡ put_all out.old (stmt_tokens s.now)) }
{
    match s {
        Stmt::Empty => out.mark(Mark::Semicolon),
        Stmt::Set(t, e) => set(out, t, e),
        Stmt::Block(body) => block(out, body.as_slice()),
        Stmt::If(c, a, b) => {
            condition(out, c)?;
            stmt(out, a.get())?;
            match b {
                None => Ok(()),
                Some(b) => {
                    out.key(Key::Else)?;
                    stmt(out, b.get())
                }
            }
        }
    }
}

/// Writes a block.
#[cycle(statements)]
#[tactic(auto, using(crate::proofs::Texts::put_append))]
fn block(out: &mut Text, body: &[Stmt]) -> Result<(), Memory>
    ensures { OnOk result (out.new ≡ put_all out.old (block_tokens (stmts_tokens body.now))) }
{
    out.key(Key::Begin)?;
    stmts(out, body)?;
    out.key(Key::End)
}

/// Writes statements one after the other.
#[cycle(statements)]
fn stmts(out: &mut Text, body: &[Stmt]) -> Result<(), Memory>
    ensures { OnOk result (out.new ≡ put_all out.old (stmts_tokens body.now)) }
{
    for at in 0..body.len() {
        stmt(out, &body[at])?;
    }
    Ok(())
}

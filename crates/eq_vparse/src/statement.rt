//! Statements.

ghost use Rattle.std.specs.Prelude.{◌≡◌, [], ◌∷◌, ◌++◌, IfOk};
ghost use Rattle.eq_vparse.specs.Limits.{limits};
ghost use Rattle.eq_vparse.specs.Reading.{Reads, stopped};
ghost use Rattle.eq_vparse.specs.TargetReading.{begins_target as begins_target_lem};
ghost use Rattle.eq_vparse.specs.StatementReading as spec;

use crate::cursor::Cursor;
use crate::stop::Stop;
use crate::tree::{Expr, Stmt, Stmts};
use eq_base::{Boxed, Items, Memory};
use eq_vlex::{Key, Mark, TokenKind};
use std::alloc::Global;

fn boxed(alloc: Global, stmt: Option<Stmt>) -> Result<Option<Boxed<Stmt>>, Memory>
    ensures { IfOk result (λ same. same ≡ stmt) }
{
    match stmt {
        Some(stmt) => Ok(Some(Boxed::new(alloc, stmt)?)),
        None => Ok(None),
    }
}

/// `if (condition) then`, with `otherwise` behind its `else`.
fn branching(
    alloc: Global,
    condition: Expr,
    then: Stmt,
    otherwise: Option<Stmt>,
) -> Result<Stmt, Memory>
    ensures { IfOk result (λ s. s ≡ spec.branching condition then otherwise) }
{
    let then = Boxed::new(alloc, then)?;
    Ok(Stmt::If(condition, then, boxed(alloc, otherwise)?))
}

impl Cursor<'_> {
    /// Whether a target may begin here.
    #[tactic(auto, unfolding(crate::specs::TargetReading::begins_target))]
    fn begins_target(&self) -> bool
        ensures { result ≡ begins_target_lem self.now }
    {
        match self.peek() {
            Some(TokenKind::Word(_)) => true,
            _ => self.is_mark(Mark::LeftBrace),
        }
    }

    /// Whether a statement may begin here.
    #[tactic(auto, unfolding(crate::specs::StatementReading::begins_stmt))]
    fn begins_stmt(&self) -> bool
        ensures { result ≡ spec.begins_stmt self.now }
    {
        self.is_mark(Mark::Semicolon)
            | self.is_key(Key::Begin)
            | self.is_key(Key::If)
            | self.begins_target()
    }

    /// No statement may stand here, since too many hold it.
    #[tactic(auto, unfolding(crate::specs::StatementReading::too_deep_at))]
    fn too_deep_stmt(&self) -> Stop
        ensures { spec.too_deep_at self.now ≡ stopped result }
    {
        if self.begins_stmt() {
            return self.too_deep();
        }
        self.wrong()
    }

    #[tactic(auto, unfolding(crate::specs::StatementReading::set_at))]
    fn set(&mut self, alloc: Global) -> Result<Stmt, Stop>
        ensures { Reads result self.new (spec.set_at limits self.old) }
    {
        let target = self.target(alloc)?;
        self.expect(Mark::LessEqual)?;
        let expr = self.expr(alloc)?;
        self.expect(Mark::Semicolon)?;
        Ok(Stmt::Set(target, expr))
    }

    /// The condition of an `if`, in its parentheses.
    #[tactic(auto, unfolding(crate::specs::StatementReading::condition_at))]
    fn condition(&mut self, alloc: Global) -> Result<Expr, Stop>
        ensures { Reads result self.new (spec.condition_at limits self.old) }
    {
        self.expect(Mark::LeftParen)?;
        let condition = self.expr(alloc)?;
        self.expect(Mark::RightParen)?;
        Ok(condition)
    }

    /// What stands behind `else`, where it stands here.
    #[cycle(stmt)]
    #[tactic(auto, unfolding(crate::specs::StatementReading::otherwise_at))]
    fn otherwise(&mut self, alloc: Global, levels: u32) -> Result<Option<Stmt>, Stop>
        ensures { Reads result self.new (spec.otherwise_at (spec.stmt_at limits levels) self.old) }
    {
        if !self.takes_key(Key::Else) {
            return Ok(None);
        }
        let stmt = self.stmt(alloc, levels)?;
        Ok(Some(stmt))
    }

    /// What stands behind `if`.
    #[cycle(stmt)]
    #[tactic(auto, unfolding(crate::specs::StatementReading::branches_at))]
    fn branches(&mut self, alloc: Global, levels: u32) -> Result<Stmt, Stop>
        ensures { Reads result self.new (spec.branches_at limits (spec.stmt_at limits levels) self.old) }
    {
        let condition = self.condition(alloc)?;
        let then = self.stmt(alloc, levels)?;
        let otherwise = self.otherwise(alloc, levels)?;
        Ok(branching(alloc, condition, then, otherwise)?)
    }

    /// The statements up to `end`.
    #[cycle(stmt)]
    #[tactic(auto, unfolding(crate::specs::StatementReading::body_at))]
    fn body(&mut self, alloc: Global, levels: u32) -> Result<Stmts, Stop>
        ensures { Reads result self.new (spec.body_at (spec.stmt_at limits levels) self.old) }
    {
        let mut body = Items::new(alloc);
        while !self.is_key(Key::End) {
            let stmt = self.stmt(alloc, levels)?;
            body.push(stmt)?;
        }
        Ok(body)
    }

    /// What stands behind `begin`.
    #[cycle(stmt)]
    #[tactic(auto, unfolding(crate::specs::StatementReading::block_at))]
    fn block(&mut self, alloc: Global, levels: u32) -> Result<Stmt, Stop>
        ensures { Reads result self.new (spec.block_at (spec.stmt_at limits levels) self.old) }
    {
        let body = self.body(alloc, levels)?;
        self.expect_key(Key::End)?;
        Ok(Stmt::Block(body))
    }

    /// A statement in which so many others may stand in one another.
    #[cycle(stmt)]
    #[tactic(auto, unfolding(crate::specs::StatementReading::stmt_with))]
    fn stmt_with(&mut self, alloc: Global, levels: u32) -> Result<Stmt, Stop>
        ensures { Reads result self.new (spec.stmt_with limits (spec.stmt_at limits levels) self.old) }
    {
        if self.takes(Mark::Semicolon) {
            return Ok(Stmt::Empty);
        }
        if self.takes_key(Key::Begin) {
            return self.block(alloc, levels);
        }
        if self.takes_key(Key::If) {
            return self.branches(alloc, levels);
        }
        self.set(alloc)
    }

    /// Reads a statement, where so many may stand in one another.
    #[cycle(stmt)]
    pub fn stmt(&mut self, alloc: Global, levels: u32) -> Result<Stmt, Stop>
        ensures { Reads result self.new (spec.stmt_at limits levels self.old) }
    {
        if levels == 0 {
            return Err(self.too_deep_stmt());
        }
        self.stmt_with(alloc, levels - 1)
    }
}

//! Expressions, read step by step with a stack of what waits for an operand.

ghost use Rattle.std.specs.Prelude.{IfErr};
ghost use Rattle.eq_vparse.specs.Limits.{limits};
ghost use Rattle.eq_vparse.specs.Reading.{Reads};
ghost use Rattle.eq_vparse.specs.Stopping.{StopsExpr};
ghost use Rattle.eq_vparse.specs.Machine as spec;

use crate::cursor::Cursor;
use crate::depth::MARKS;
use crate::follow::follow;
use crate::machine::{State, Step, Waiting};
use crate::operand::begin;
use crate::pending::Stack;
use crate::stop::Stop;
use crate::tree::Expr;
use std::alloc::Global;

#[tactic(auto, unfolding(crate::specs::Machine::step_at))]
fn step(cursor: &mut Cursor<'_>, alloc: Global, state: State) -> Result<Step, Stop>
    ensures { Reads result cursor.new (spec.step_at state cursor.old) }
{
    match state {
        State::Wanted(waiting) => begin(cursor, alloc, waiting),
        State::Found(operand, waiting) => follow(cursor, alloc, operand, waiting),
    }
}

impl Cursor<'_> {
    /// Reads an expression step by step.
    fn steps(&mut self, alloc: Global) -> Result<Expr, Stop>
        ensures { Reads result self.new (spec.expr_at limits.marks self.old) }
    {
        let stack = Stack::new(alloc);
        let mut state = State::Wanted(Waiting { room: MARKS, stack });
        loop {
            match step(self, alloc, state)? {
                Step::More(next) => state = next,
                Step::Whole(expr) => return Ok(expr),
            }
        }
    }

    /// Reads an expression, or says where no expression goes on.
    pub fn expr(&mut self, alloc: Global) -> Result<Expr, Stop>
        ensures value { Reads result self.new (spec.expr_at limits.marks self.old) }
        ensures place { IfErr result (StopsExpr limits.marks self.old) }
    {
        self.steps(alloc)
    }
}

//! What the reading of an expression keeps between two steps.

ghost use Rattle.std.specs.Prelude.{◌≡◌, ◌∷◌, IfOk};
ghost use Rattle.eq_vparse.specs.Reading.{Reads};
ghost use Rattle.eq_vparse.specs.Machine as spec;

use crate::cursor::Cursor;
use crate::pending::{Pending, Stack};
use crate::stop::Stop;
use crate::tree::Expr;
use eq_base::Memory;

/// What waits, and how many counted marks may still be taken.
#[derive(Drop)]
pub(crate) struct Waiting {
    pub room: u32,
    pub stack: Stack,
}

/// What was read last: what wants an operand, or an operand.
#[derive(Drop)]
pub(crate) enum State {
    Wanted(Waiting),
    Found(Expr, Waiting),
}

/// How the reading goes on.
#[derive(Drop)]
pub(crate) enum Step {
    More(State),
    Whole(Expr),
}

/// Takes a counted mark.
#[tactic(auto, unfolding(crate::specs::Machine::counted_at))]
pub(crate) fn counted(cursor: &mut Cursor<'_>, room: u32) -> Result<u32, Stop>
    ensures { Reads result cursor.new (spec.counted_at room cursor.old) }
{
    if room == 0 {
        return Err(Stop::TooDeep {
            left: cursor.left(),
        });
    }
    cursor.advance();
    Ok(room - 1)
}

/// Behind what was taken this waits.
pub(crate) fn waits(pending: Pending, mut waiting: Waiting) -> Result<Step, Memory>
    ensures { IfOk result (λ step. step ≡ spec.wanted waiting.room (pending ∷ waiting.stack)) }
{
    waiting.stack.push(pending)?;
    Ok(Step::More(State::Wanted(waiting)))
}

/// Takes a counted mark, behind which this waits.
#[tactic(auto, unfolding(crate::specs::Machine::wait_at))]
pub(crate) fn wait(
    cursor: &mut Cursor<'_>,
    pending: Pending,
    mut waiting: Waiting,
) -> Result<Step, Stop>
    ensures { Reads result cursor.new (spec.wait_at pending waiting cursor.old) }
{
    waiting.room = counted(cursor, waiting.room)?;
    Ok(waits(pending, waiting)?)
}

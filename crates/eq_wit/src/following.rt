//! Where the reading stands behind the next line, whatever is due.

ghost use Rattle.std.specs.Prelude.{◌≡◌, ◌+◌, ◌^◌, ◌<◌, IfOk};
ghost use Rattle.eq_wit.specs.declared.state.State.TheVariants as XState;
ghost use Rattle.eq_wit.specs.inner.Counting.{AreCounts, CountsNothing, HasCounts, conflicts_at};
ghost use Rattle.eq_wit.specs.inner.Items as spec;
ghost use Rattle.eq_wit.specs.inner.Standing.{Stands};

use crate::answering::{frame, one_query, regs};
use crate::counted::Counts;
use crate::dividing::Words;
use crate::logging::one_step;
use crate::state::{Open, State, Stop, Tally};
use crate::taking::{named, next_input, next_node, next_output, titled};
use crate::trying::{closing, next_try, query_over};
use crate::types::WitKind;
use eq_base::Memory;
use eq_proof::Lit;
use std::alloc::Global;

/// What serves each line in place of the line before: its words, the literals and the antecedents of its step. And what is
/// known of the part.
#[derive(Drop)]
pub struct Room {
    pub words: Words,
    pub lits: Vec<Lit>,
    pub ants: Vec<u64>,
    pub counts: Counts,
}

impl Room {
    pub fn new(alloc: Global) -> Result<Room, Memory>
        ensures { IfOk result (λ room. CountsNothing room.counts) }
    {
        Ok(Room {
            words: Words::new(alloc),
            lits: Vec::new(alloc),
            ants: Vec::new(alloc),
            counts: Counts::new(alloc)?,
        })
    }
}

/// Behind a query, or behind the last line of a try where none is due.
fn next_query(
    alloc: Global,
    tally: Tally,
    attempt: Open,
    words: &Words,
    counts: &mut Counts,
) -> Result<State, Stop>
    requires stands { Stands (XState.Queries tally attempt) }
    requires counts { AreCounts tally.part counts.old }
    ensures judges { spec.Judges (XState.Queries tally attempt) words.now result }
    ensures kept { AreCounts tally.part counts.new }
{
    if attempt.left == 0 {
        query_over(tally, attempt, words)
    } else {
        one_query(alloc, tally, attempt, words, counts)
    }
}

/// Behind the line whose words stand in the room.
pub fn advance(alloc: Global, state: State, room: &mut Room) -> Result<State, Stop>
    requires stands { Stands state }
    requires few { conflicts_at state + 1 < 2 ^ 64 }
    requires counts { HasCounts state room.old.counts }
    ensures judges { spec.Judges state room.old.words result }
    ensures kept { HasCounts state room.new.counts }
{
    let words = &room.words;
    match state {
        State::Titled => titled(alloc, words),
        State::Named(name) => named(alloc, name, words),
        State::Inputs(draft, left) => next_input(alloc, draft, left, words),
        State::Nodes(draft, seen, left) => next_node(draft, seen, left, words),
        State::Outputs(draft, left) => next_output(alloc, draft, left, words),
        State::Tries(tally) => next_try(alloc, tally, words),
        State::Queries(tally, attempt) => {
            next_query(alloc, tally, attempt, words, &mut room.counts)
        }
        State::Regs(tally, attempt, query, k) => {
            regs(alloc, tally, attempt, query, k, words, &mut room.counts)
        }
        State::Frames(tally, attempt, query, k, run, left) => {
            frame(alloc, tally, attempt, query, k, run, left, words)
        }
        State::Steps(tally, attempt, query, k, steps) => one_step(
            tally,
            attempt,
            query,
            k,
            steps,
            words,
            &mut room.lits,
            &mut room.ants,
        ),
        State::Closing(tally) => closing(tally, words),
        State::Ended(_) => Err(Stop::Fault(WitKind::End)),
    }
}
